//! Numbers in big-endian order.

ghost use Rattle.std.specs.Prelude.{◌≡◌, ◌≤◌, length};
ghost use Rattle.exif_movie_facts.specs.Numbers.{u16_of, u32_of, u64_of};

/// The number in the first two bytes.
#[tactic(auto, unfolding(crate::specs::Numbers::u16_of))]
pub(crate) fn u16_of(bytes: &[u8]) -> u16
    requires { 2 ≤ length bytes.now }
    ensures { result ≡ u16_of bytes.now }
{
    u16::from_be_bytes([bytes[0], bytes[1]])
}

/// The number in the first four bytes.
#[tactic(auto, unfolding(crate::specs::Numbers::u32_of))]
pub(crate) fn u32_of(bytes: &[u8]) -> u32
    requires { 4 ≤ length bytes.now }
    ensures { result ≡ u32_of bytes.now }
{
    u32::from_be_bytes([bytes[0], bytes[1], bytes[2], bytes[3]])
}

/// The number in the first eight bytes.
#[tactic(auto, unfolding(crate::specs::Numbers::u64_of))]
pub(crate) fn u64_of(bytes: &[u8]) -> u64
    requires { 8 ≤ length bytes.now }
    ensures { result ≡ u64_of bytes.now }
{
    u64::from_be_bytes([
        bytes[0], bytes[1], bytes[2], bytes[3], bytes[4], bytes[5], bytes[6], bytes[7],
    ])
}
