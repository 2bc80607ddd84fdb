//! Numbers in bytes.

ghost use Rattle.std.specs.Prelude.{◌≡◌, ◌≤◌, length};
ghost use Rattle.exif_inventory_heif.specs.Numbers.{number};

/// The number in the first bytes, the highest first, where there are 2, 4 or 8; else 0.
#[tactic(auto, unfolding(crate::specs::Numbers::number))]
pub fn number(width: usize, bytes: &[u8]) -> usize
    requires { width ≤ length bytes.now }
    ensures { result ≡ number width bytes.now }
{
    match width {
        2 => usize::from(u16::from_be_bytes([bytes[0], bytes[1]])),
        4 => u32::from_be_bytes([bytes[0], bytes[1], bytes[2], bytes[3]]) as usize,
        8 => u64::from_be_bytes([
            bytes[0], bytes[1], bytes[2], bytes[3], bytes[4], bytes[5], bytes[6], bytes[7],
        ]) as usize,
        _ => 0,
    }
}
