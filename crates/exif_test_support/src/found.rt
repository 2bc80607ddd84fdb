//! What a field that was found is.

use exif::{Field, In, Tag, Value};

// The value of a field, if it has this tag in this directory.
fn value_of(found: Option<&Field>, tag: Tag, ifd_num: In) -> Option<&Value> {
    let field = found?;
    if field.tag == tag && field.ifd_num == ifd_num {
        Some(&field.value)
    } else {
        None
    }
}

/// Whether a field of the first directory has one text, which is this.
pub fn is_text(found: Option<&Field>, tag: Tag, text: &[u8]) -> bool {
    match value_of(found, tag, In::PRIMARY) {
        Some(Value::Ascii(texts)) => { texts.len() == 1 && texts.as_slice()[0].as_slice() == text }
        _ => false,
    }
}
