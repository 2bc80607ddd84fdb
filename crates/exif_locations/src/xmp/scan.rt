//! How far a run of bytes goes.

ghost use Rattle.std.specs.Prelude.{◌≡◌, ◌≤◌, ◌<◌, length, slice_index, IfSome};
ghost use Rattle.exif_locations.specs.XmpScans.{ended, is_name_byte, is_space, quoted, run};

/// The byte at an offset, or 0 behind the end.
pub fn byte_at(input: &[u8], at: usize) -> u8
    ensures { result ≡ slice_index input.now at }
{
    if at < input.len() { input[at] } else { 0 }
}

/// Whether a byte is white space.
pub fn is_space(b: u8) -> bool
    ensures { result ≡ is_space b }
{
    b == b' ' || b == b'\t' || b == b'\n' || b == b'\r'
}

/// Whether a byte is one of a name.
pub fn is_name_byte(b: u8) -> bool
    ensures { result ≡ is_name_byte b }
{
    (97 <= b && b <= 122)
        || (65 <= b && b <= 90)
        || (48 <= b && b <= 58)
        || b == 95
        || b == 45
        || b == 46
        || 128 <= b
}

/// How many bytes at the front are those of a name.
pub fn name_len(input: &[u8]) -> usize
    ensures value { result ≡ run is_name_byte input.now }
    ensures within { result ≤ length input.now }
{
    for i in 0..input.len() {
        if !is_name_byte(input[i]) {
            return i;
        }
    }
    input.len()
}

/// How many bytes at the front are white space.
pub fn space_len(input: &[u8]) -> usize
    ensures value { result ≡ run is_space input.now }
    ensures within { result ≤ length input.now }
{
    for i in 0..input.len() {
        if !is_space(input[i]) {
            return i;
        }
    }
    input.len()
}

/// How many bytes there are up to the first `>` that is behind `count` bytes `c`, and it.
pub fn ended(input: &[u8], c: u8, count: usize) -> Option<usize>
    ensures value { result ≡ ended c count 0 input.now }
    ensures within { IfSome result (λ n. n ≤ length input.now) }
{
    let mut seen = 0;
    for i in 0..input.len() {
        if input[i] == b'>' && count <= seen {
            return Some(i + 1);
        }
        seen = if input[i] == c { seen + 1 } else { 0 };
    }
    None
}

/// How many bytes there are up to a quote, and it; none where there is a `<` before.
pub fn quoted(input: &[u8], quote: u8) -> Option<usize>
    ensures value { result ≡ quoted quote input.now }
    ensures within { IfSome result (λ n. n ≤ length input.now) }
{
    for i in 0..input.len() {
        if input[i] == quote {
            return Some(i + 1);
        }
        if input[i] == b'<' {
            return None;
        }
    }
    None
}
