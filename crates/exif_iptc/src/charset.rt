//! The character set of texts.

ghost use Rattle.std.specs.Prelude.{◌≡◌};
ghost use Rattle.exif_iptc.specs.Charsets.{charset_named, charset_of, names_charset};

use crate::dataset::{Dataset, value_bytes};
use crate::text::without_zeros;

/// In which characters the texts of IPTC data are.
#[derive(Clone, Copy, Debug, PartialEq, Eq)]
pub enum Charset {
    /// No dataset 1:90 says it. The texts are read as Latin-1, with the characters of Windows code
    /// page 1252 from `80` to `9f`, which are control characters in Latin-1.
    Latin1,
    /// UTF-8, by the escape sequence ESC % G; zeros may follow it.
    Utf8,
    /// Another escape sequence. The texts are read as with `Latin1`, and may be others.
    Unknown,
}

// Whether a dataset is 1:90, the coded character set.
fn names_charset(dataset: Dataset) -> bool
    ensures { result ≡ names_charset dataset }
{
    dataset.record_number == 1 && dataset.number == 90
}

// The character set of an escape sequence; zeros may follow it.
fn charset_named(value: &[u8]) -> Charset
    ensures { result ≡ charset_named value.now }
{
    if without_zeros(value) == b"\x1b%G".as_slice() {
        return Charset::Utf8;
    }
    Charset::Unknown
}

/// The character set of the texts of IPTC data with these datasets (IIM, 1:90): that of the first
/// dataset 1:90.
pub fn charset_of(input: &[u8], datasets: &[Dataset]) -> Charset
    ensures { result ≡ charset_of input.now datasets.now }
{
    for i in 0..datasets.len() {
        if names_charset(datasets[i]) {
            return charset_named(value_bytes(input, datasets[i]));
        }
    }
    Charset::Latin1
}
