//! The index of frames of a JPEG XL file (ISO/IEC 18181-2, the box `jxli`).

ghost use Rattle.std.specs.Prelude.{◌≡◌, ◌<◌, ◌≤◌, ◌^◌, length};
ghost use Rattle.exif_lengths.specs.Index.{bits_at, index_fits, more_len, number_of, numbers};

// How many bytes a number may have.
const MAX_LEN: u8 = 9;
// The units of time.
const UNITS_LEN: usize = 8;

// How many bytes at the front say that a number goes on behind them.
fn more_len(bytes: &[u8]) -> usize
    ensures value { result ≡ more_len bytes.now }
    ensures within { result ≤ length bytes.now }
{
    let mut n = 0;
    while n < bytes.len() && bytes[n] >= 128 {
        n += 1;
    }
    n
}

// Seven bits of a number.
fn bits_at(bytes: &[u8], index: usize) -> u64
    requires { index < length bytes.now }
    ensures value { result ≡ bits_at bytes.now index }
    ensures most { result < 128 }
{
    u64::from(bytes[index]) % 128
}

// A number behind whose first byte so many others come.
fn number_of(bytes: &[u8], more: usize) -> u64
    requires few { more < 4 }
    requires within { more < length bytes.now }
    ensures value { result ≡ number_of bytes.now more }
    ensures most { result < 2 ^ 28 }
{
    let second = if more >= 1 {
        128 * bits_at(bytes, 1)
    } else {
        0
    };
    let third = if more >= 2 {
        16384 * bits_at(bytes, 2)
    } else {
        0
    };
    let fourth = if more >= 3 {
        2097152 * bits_at(bytes, 3)
    } else {
        0
    };
    bits_at(bytes, 0) + second + third + fourth
}

// How many numbers bytes are.
fn numbers(bytes: &[u8]) -> Option<u64>
    ensures { result ≡ numbers 0 0 bytes.now }
{
    let mut begun: u8 = 0;
    let mut count: u64 = 0;
    for byte in bytes {
        if *byte < 128 {
            begun = 0;
            count += 1;
        } else if begun < MAX_LEN - 1 {
            begun += 1;
        } else {
            return None;
        }
    }
    if begun == 0 { Some(count) } else { None }
}

/// Whether an index has three numbers for each frame, and no other bytes.
pub fn index_fits(content: &[u8]) -> bool
    ensures { result ≡ index_fits content.now }
{
    let more = more_len(content);
    if more >= 4 || content.len() < more + 1 + UNITS_LEN {
        return false;
    }
    let wanted = 3 * number_of(content, more);
    match numbers(&content[more + 1 + UNITS_LEN..]) {
        Some(count) => count == wanted,
        None => false,
    }
}
