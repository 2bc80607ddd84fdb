//! What two packets say, compared.

ghost use Rattle.std.specs.Prelude.{◌≡◌, false, map};
ghost use Rattle.exif_xmp.specs.Properties.{bytes_view, property_view};
ghost use Rattle.exif_xmp_set.specs.Contents.{all_same, is_replaced, same_content, same_form, same_language, with_text_if};

use crate::found::is_named;
use exif_xmp::{Form, Property};

// Whether two languages are the same.
fn same_language(a: &Option<Vec<u8>>, b: &Option<Vec<u8>>) -> bool
    ensures { result ≡ same_language (bytes_view a.now) (bytes_view b.now) }
{
    match a {
        Some(x) => match b {
            Some(y) => x.as_slice() == y.as_slice(),
            None => false,
        },
        None => match b {
            Some(_) => false,
            None => true,
        },
    }
}

// Whether two forms are the same.
fn same_form(a: Form, b: Form) -> bool
    ensures { result ≡ same_form a b }
{
    match a {
        Form::Text => match b {
            Form::Text => true,
            Form::Unread => false,
        },
        Form::Unread => match b {
            Form::Text => false,
            Form::Unread => true,
        },
    }
}

// Whether two properties say the same, where the first one gets another text if it is the one.
fn same_content(old: &Property, new: &Property, is_set: bool, text: &[u8]) -> bool
    ensures { result ≡ same_content
        (with_text_if is_set text.now (property_view old.now)) (property_view new.now) }
{
    let language = same_language(&old.language, &new.language) && same_form(old.form, new.form);
    let names = old.namespace.as_slice() == new.namespace.as_slice()
        && old.path.as_slice() == new.path.as_slice();
    let texts = if is_set {
        text == new.text.as_slice()
    } else {
        old.text.as_slice() == new.text.as_slice()
    };
    names && texts && language
}

// Whether properties say what others say, but that the first one of a namespace and path has another
// text, unless it is behind.
fn replaced_from(
    is_done: bool,
    old: &[Property],
    new: &[Property],
    namespace: &[u8],
    path: &[u8],
    text: &[u8],
) -> bool
    ensures { result ≡ is_replaced is_done namespace.now path.now text.now
        (map property_view old.now) (map property_view new.now) }
{
    if old.len() != new.len() {
        return false;
    }
    let mut is_past = is_done;
    for i in 0..old.len() {
        let is_set = !is_past && is_named(&old[i], namespace, path);
        if !same_content(&old[i], &new[i], is_set, text) {
            return false;
        }
        is_past = is_past || is_set;
    }
    true
}

/// Whether properties say what others say, but that the first one of a namespace and path has
/// another text.
pub fn is_replaced(
    old: &[Property],
    new: &[Property],
    namespace: &[u8],
    path: &[u8],
    text: &[u8],
) -> bool
    ensures { result ≡ is_replaced false namespace.now path.now text.now
        (map property_view old.now) (map property_view new.now) }
{
    replaced_from(false, old, new, namespace, path, text)
}

/// Whether properties say what others say.
pub fn all_same(old: &[Property], new: &[Property]) -> bool
    ensures { result ≡ all_same (map property_view old.now) (map property_view new.now) }
{
    replaced_from(true, old, new, b"", b"", b"")
}
