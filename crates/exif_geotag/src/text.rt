//! Values without white space around them.

ghost use Rattle.std.specs.Prelude.{◌≡◌, ◌≤◌, length};
ghost use Rattle.exif_geotag.specs.Texts.{kept_len, trimmed};

use exif_locations::xmp::scan::{is_space, space_len};

// How many bytes there are up to the last one that is no white space, and it.
fn kept_len(text: &[u8]) -> usize
    ensures value { result ≡ kept_len text.now }
    ensures within { result ≤ length text.now }
{
    let mut kept = 0;
    for at in 0..text.len() {
        if !is_space(text[at]) {
            kept = at + 1;
        }
    }
    kept
}

/// A text without the white space before and behind it.
pub(crate) fn trimmed(text: &[u8]) -> &[u8]
    ensures { result.now ≡ trimmed text.now }
{
    let text = &text[space_len(text)..];
    &text[..kept_len(text)]
}
