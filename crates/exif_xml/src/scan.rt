//! Lengths of runs of bytes at the beginning of an input.

ghost use Rattle.std.specs.Prelude.{◌≡◌, ◌==◌, ◌≤◌, ◌<◌, length, slice_index, IfSome, IsTrue};
ghost use Rattle.exif_xml.specs.Scans.{closed_len, is_name_byte, is_space, is_text, quote_after, quoted_len, run, tag_len};

/// Whether an input has a byte other than 0 at an offset.
pub fn has_at(input: &[u8], offset: usize, byte: u8) -> bool
    requires { 0 < byte }
    ensures value { result ≡ (slice_index input.now offset == byte) }
    ensures within { IsTrue result → offset < length input.now }
{
    offset < input.len() && input[offset] == byte
}

/// The byte at an offset, or 0 behind the end of the input.
pub fn byte_at(input: &[u8], offset: usize) -> u8
    ensures { result ≡ slice_index input.now offset }
{
    if offset < input.len() {
        input[offset]
    } else {
        0
    }
}

/// Whether a byte is white space: a space, a tab, CR or LF (XML 1.0, 2.3).
pub fn is_space(b: u8) -> bool
    ensures { result ≡ is_space b }
{
    b == b' ' || b == b'\t' || b == b'\n' || b == b'\r'
}

/// Whether a byte may be in a name: ASCII letters and digits, `:`, `_`, `-`, `.`, and each byte of
/// a character beyond ASCII. This is more than XML 1.0, 2.3 allows: a name may begin with a digit.
pub fn is_name_byte(b: u8) -> bool
    ensures { result ≡ is_name_byte b }
{
    (97 <= b && b <= 122)
        || (65 <= b && b <= 90)
        || (48 <= b && b <= 58)
        || b == 95
        || b == 45
        || b == 46
        || 128 <= b
}

/// How many bytes the name at the beginning has; 0 where there is none.
pub fn name_len(input: &[u8]) -> usize
    ensures value { result ≡ run is_name_byte input.now }
    ensures within { result ≤ length input.now }
{
    for i in 0..input.len() {
        if !is_name_byte(input[i]) {
            return i;
        }
    }
    input.len()
}

/// How many bytes of white space are at the beginning.
pub fn space_len(input: &[u8]) -> usize
    ensures value { result ≡ run is_space input.now }
    ensures within { result ≤ length input.now }
{
    for i in 0..input.len() {
        if !is_space(input[i]) {
            return i;
        }
    }
    input.len()
}

/// How many bytes are before the first `<`.
pub fn text_len(input: &[u8]) -> usize
    ensures value { result ≡ run is_text input.now }
    ensures within { result ≤ length input.now }
{
    for i in 0..input.len() {
        if input[i] == b'<' {
            return i;
        }
    }
    input.len()
}

/// The length up to and with the first `>` that follows `count` or more bytes `c`, as in `-->` and
/// `]]>`; `None` where there is no such `>`.
pub fn closed_len(input: &[u8], c: u8, count: usize) -> Option<usize>
    ensures value { result ≡ closed_len c count 0 input.now }
    ensures within { IfSome result (λ n. n ≤ length input.now) }
{
    let mut seen = 0;
    for i in 0..input.len() {
        if input[i] == b'>' && count <= seen {
            return Some(i + 1);
        }
        seen = if input[i] == c { seen + 1 } else { 0 };
    }
    None
}

/// The length up to and with the first `quote`; `None` where there is none or where a `<` is before
/// it, since no attribute value contains `<` (XML 1.0, 2.3).
pub fn quoted_len(input: &[u8], quote: u8) -> Option<usize>
    ensures value { result ≡ quoted_len quote input.now }
    ensures within { IfSome result (λ n. n ≤ length input.now) }
    ensures some { IfSome result (λ n. 0 < n) }
{
    for i in 0..input.len() {
        if input[i] == quote {
            return Some(i + 1);
        }
        if input[i] == b'<' {
            return None;
        }
    }
    None
}

// The quote that is open behind a byte, or 0.
fn quote_after(quote: u8, b: u8) -> u8
    ensures { result ≡ quote_after quote b }
{
    if quote == 0 {
        if b == b'"' || b == b'\'' { b } else { 0 }
    } else {
        if b == quote { 0 } else { quote }
    }
}

/// The length up to and with the first `>` that is in no quotes: the end of a tag.
pub fn tag_len(input: &[u8]) -> Option<usize>
    ensures value { result ≡ tag_len 0 input.now }
    ensures within { IfSome result (λ n. n ≤ length input.now) }
    ensures some { IfSome result (λ n. 0 < n) }
{
    let mut quote = 0;
    for i in 0..input.len() {
        if quote == 0 && input[i] == b'>' {
            return Some(i + 1);
        }
        quote = quote_after(quote, input[i]);
    }
    None
}
