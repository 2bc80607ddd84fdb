//! Texts in HTML.

ghost use Rattle.std.specs.Prelude.{◌≡◌, ◌++◌, OnOk};
ghost use Rattle.exif_page.specs.Escaping.{between, between_if, escaped, escaped_byte};

use std::alloc::AllocError;

// Appends a byte of a text, by its character reference where it could be markup.
fn push_escaped_byte(out: &mut Vec<u8>, byte: u8) -> Result<(), AllocError>
    ensures { OnOk result (out.new.items ≡ out.old.items ++ escaped_byte byte) }
{
    match byte {
        b'&' => out.extend_from_slice(b"&amp;"),
        b'<' => out.extend_from_slice(b"&lt;"),
        b'>' => out.extend_from_slice(b"&gt;"),
        b'"' => out.extend_from_slice(b"&quot;"),
        b'\'' => out.extend_from_slice(b"&#39;"),
        _ => out.extend_from_slice(&[byte]),
    }
}

// Appends a text, escaped.
#[tactic(auto, unfolding(crate::specs::Escaping::escaped))]
pub(crate) fn push_escaped(out: &mut Vec<u8>, text: &[u8]) -> Result<(), AllocError>
    ensures { OnOk result (out.new.items ≡ out.old.items ++ escaped text.now) }
{
    for byte in text {
        push_escaped_byte(out, *byte)?;
    }
    Ok(())
}

// Appends markup.
pub(crate) fn push_markup(out: &mut Vec<u8>, markup: &[u8]) -> Result<(), AllocError>
    ensures { OnOk result (out.new.items ≡ out.old.items ++ markup.now) }
{
    out.extend_from_slice(markup)
}

// Appends a text, escaped, between two pieces of markup.
#[tactic(auto, unfolding(crate::specs::Escaping::between))]
pub(crate) fn push_between(
    out: &mut Vec<u8>,
    before: &[u8],
    text: &[u8],
    after: &[u8],
) -> Result<(), AllocError>
    ensures { OnOk result (out.new.items
        ≡ out.old.items ++ between before.now text.now after.now) }
{
    out.extend_from_slice(before)?;
    push_escaped(out, text)?;
    out.extend_from_slice(after)
}

// Appends a text, escaped, between two pieces of markup, where there is one.
#[tactic(auto, unfolding(crate::specs::Escaping::between_if))]
pub(crate) fn push_between_if(
    out: &mut Vec<u8>,
    before: &[u8],
    text: Option<&str>,
    after: &[u8],
) -> Result<(), AllocError>
    ensures { OnOk result (out.new.items
        ≡ out.old.items ++ between_if before.now text.entry after.now) }
{
    match text {
        Some(text) => push_between(out, before, text.as_bytes(), after),
        None => Ok(()),
    }
}
