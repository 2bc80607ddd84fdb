//! Bytes compared.

ghost use Rattle.std.specs.Prelude.{◌≡◌, ◌≤◌, length};
ghost use Rattle.exif_movie.specs.Bytes.{begins, is_zeros, number};

/// The big-endian number in the first four bytes.
#[tactic(auto, unfolding(crate::specs::Bytes::number))]
pub fn number(bytes: &[u8]) -> usize
    requires { 4 ≤ length bytes.now }
    ensures { result ≡ number bytes.now }
{
    u32::from_be_bytes([bytes[0], bytes[1], bytes[2], bytes[3]]) as usize
}

/// Whether all bytes are zero.
pub fn is_zeros(bytes: &[u8]) -> bool
    ensures { result ≡ is_zeros bytes.now }
{
    for b in bytes {
        if *b != 0 {
            return false;
        }
    }
    true
}

/// Whether bytes begin with a prefix.
pub fn begins(prefix: &[u8], bytes: &[u8]) -> bool
    ensures { result ≡ begins prefix.now bytes.now }
{
    bytes.len() >= prefix.len() && bytes[..prefix.len()] == prefix[..]
}
