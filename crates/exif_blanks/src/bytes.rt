//! Bytes that are all the same, those at the front, numbers in them, and the lesser number.

ghost use Rattle.std.specs.Int.{from_be_bytes, w16, w32};
ghost use Rattle.std.specs.Prelude.{◌≡◌, ◌≤◌, length, min, take};
ghost use Rattle.exif_blanks.specs.HeifBlanks.{all_are};
ghost use Rattle.exif_blanks.specs.HeifSteps.{begun_len};

/// Whether all bytes are this one.
pub fn all_are(b: u8, bytes: &[u8]) -> bool
    ensures { result ≡ all_are b bytes.now }
{
    for x in bytes {
        if b != *x {
            return false;
        }
    }
    true
}

/// The lesser of two numbers.
pub fn lesser(a: usize, b: usize) -> usize
    ensures { result ≡ min a b }
{
    if a <= b { a } else { b }
}

/// So many bytes at the front, or all.
#[tactic(auto, using(std::proofs::lemmas::List::take_all))]
pub fn front_of(len: usize, bytes: &[u8]) -> &[u8]
    ensures { result.now ≡ take len bytes.now }
{
    if len < bytes.len() {
        &bytes[..len]
    } else {
        bytes
    }
}

/// How many bytes a text takes, if bytes begin with it; else 0.
pub fn begun_len(text: &[u8], bytes: &[u8]) -> usize
    ensures value { result ≡ begun_len text.now bytes.now }
    ensures most { result ≤ length text.now }
{
    if front_of(text.len(), bytes) == text {
        text.len()
    } else {
        0
    }
}

/// The number in the first two bytes.
pub fn short(bytes: &[u8]) -> u16
    requires { 2 ≤ length bytes.now }
    ensures { result ≡ from_be_bytes w16 (take 2 bytes.now) }
{
    u16::from_be_bytes([bytes[0], bytes[1]])
}

/// The number in the first four bytes.
pub fn long(bytes: &[u8]) -> u32
    requires { 4 ≤ length bytes.now }
    ensures { result ≡ from_be_bytes w32 (take 4 bytes.now) }
{
    u32::from_be_bytes([bytes[0], bytes[1], bytes[2], bytes[3]])
}
