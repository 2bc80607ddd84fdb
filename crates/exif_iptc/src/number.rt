//! Numbers in big-endian order.

ghost use Rattle.std.specs.Prelude.{◌≡◌, ◌≤◌, ◌<◌, ◌^◌, length};
ghost use Rattle.exif_iptc.specs.Numbers.{big_endian};

/// How many bytes a number may have.
pub(crate) const MAX_NUMBER_LEN: usize = 8;

/// The number that up to eight bytes are, the most significant byte first.
pub(crate) fn big_endian(bytes: &[u8]) -> u64
    requires { length bytes.now ≤ 8 }
    ensures { result ≡ big_endian bytes.now }
{
    let mut number = 0;
    for i in 0..bytes.len() {
        number = number * 256 + u64::from(bytes[i]);
    }
    number
}
