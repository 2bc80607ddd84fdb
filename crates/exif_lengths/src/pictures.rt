//! The index of the pictures of a JPEG file (CIPA DC-007-2009, 5.2).

ghost use Rattle.std.specs.Prelude.{◌≡◌, ◌<◌, ◌≤◌, ◌^◌, ◌*◌, drop};
ghost use Rattle.exif_lengths.specs.Pictures.{directory_len, ends_in, entries_len, entry_len, index_len, is_little, long_of, next_at, next_len, pictures_fit, short_of, unit, value_len};

// The tag of the list of pictures.
const PICTURES: u16 = 0xb002;
// How many bytes an entry has.
const ENTRY_LEN: usize = 12;

// What follows so many bytes.
fn behind(bytes: &[u8], len: usize) -> &[u8]
    ensures { result.now ≡ drop len bytes.now }
{
    match bytes.get(len..) {
        Some(rest) => rest,
        None => &[],
    }
}

// A number of 16 bits at the front of bytes.
fn short_of(little: bool, bytes: &[u8]) -> u16
    ensures { result ≡ short_of little bytes.now }
{
    match bytes {
        [a, b, ..] if little => u16::from(*a) + 256 * u16::from(*b),
        [a, b, ..] => 256 * u16::from(*a) + u16::from(*b),
        _ => 0,
    }
}

// A number of 32 bits.
fn long_of(little: bool, bytes: &[u8]) -> u32
    ensures { result ≡ long_of little bytes.now }
{
    let first = u32::from(short_of(little, bytes));
    let second = u32::from(short_of(little, behind(bytes, 2)));
    if little {
        first + 65536 * second
    } else {
        65536 * first + second
    }
}

// How many bytes a number of a type has.
fn unit(kind: u16) -> u64
    ensures value { result ≡ unit kind }
    ensures most { result ≤ 8 }
{
    match kind {
        1 | 2 | 6 | 7 => 1,
        3 | 8 => 2,
        4 | 9 => 4,
        5 | 10 => 8,
        _ => 0,
    }
}

// How many bytes a value of this size has behind the directory.
fn value_len(tag: u16, size: u64) -> u64
    ensures value { result ≡ value_len tag size }
    ensures most { result ≤ size }
{
    if size > 4 && (tag == PICTURES || size <= 8) {
        size
    } else {
        0
    }
}

// The same of the value of an entry.
fn entry_len(little: bool, entry: &[u8]) -> u64
    ensures value { result ≡ entry_len little entry.now }
    ensures most { result < 2 ^ 35 }
{
    let kind = short_of(little, behind(entry, 2));
    let size = unit(kind) * u64::from(long_of(little, behind(entry, 4)));
    value_len(short_of(little, entry), size)
}

// The same of so many entries.
fn entries_len(little: bool, count: u16, bytes: &[u8]) -> u64
    ensures value { result ≡ entries_len little count bytes.now }
    ensures most { result ≤ count * 2 ^ 35 }
{
    let mut len = 0;
    let mut rest = bytes;
    let mut left = count;
    while left > 0 {
        len += entry_len(little, rest);
        rest = behind(rest, ENTRY_LEN);
        left -= 1;
    }
    len
}

// How many bytes a directory has, with its values.
fn directory_len(little: bool, bytes: &[u8]) -> u64
    ensures value { result ≡ directory_len little bytes.now }
    ensures most { result < 2 ^ 52 }
{
    let count = short_of(little, bytes);
    6 + 12 * u64::from(count) + entries_len(little, count, behind(bytes, 2))
}

// The same of the one at an offset, if there is one.
fn next_len(little: bool, bytes: &[u8], at: usize) -> u64
    ensures value { result ≡ next_len little bytes.now at }
    ensures most { result < 2 ^ 52 }
{
    if at == 0 {
        return 0;
    }
    directory_len(little, behind(bytes, at))
}

// Where the directory behind one is.
fn next_at(little: bool, directory: &[u8]) -> u32
    ensures { result ≡ next_at little directory.now }
{
    let len = 2 + ENTRY_LEN * usize::from(short_of(little, directory));
    long_of(little, behind(directory, len))
}

// How many bytes an index has.
fn index_len(little: bool, bytes: &[u8]) -> u64
    ensures { result ≡ index_len little bytes.now }
{
    let first = behind(bytes, 8);
    let next = next_at(little, first);
    8 + directory_len(little, first) + next_len(little, bytes, next as usize)
}

// Whether there is nothing but zeros behind so many bytes.
fn ends_in(len: u64, bytes: &[u8]) -> bool
    ensures { result ≡ ends_in len bytes.now }
{
    bytes.len() as u64 <= len || behind(bytes, len as usize).iter().all(|b| *b == 0)
}

// The order of an index, whose first directory follows its header: whether the lower half of a
// number comes first.
fn is_little(bytes: &[u8]) -> Option<bool>
    ensures { result ≡ is_little bytes.now }
{
    if bytes.starts_with(b"II*\0\x08\0\0\0") {
        Some(true)
    } else if bytes.starts_with(b"MM\0*\0\0\0\x08") {
        Some(false)
    } else {
        None
    }
}

/// Whether bytes are an index of pictures, with as many bytes as it has, and then zeros.
pub fn pictures_fit(bytes: &[u8]) -> bool
    ensures { result ≡ pictures_fit bytes.now }
{
    match is_little(bytes) {
        Some(little) => ends_in(index_len(little, bytes), bytes),
        None => false,
    }
}
