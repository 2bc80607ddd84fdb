//! Texts as they are written in a packet.

ghost use Rattle.std.specs.Prelude.{◌≡◌, ◌++◌, OnOk};
ghost use Rattle.exif_xmp_set.specs.Escaping.{escaped, escaped_byte, markup_byte, quoted_byte, written};

use crate::context::Context;
use std::alloc::AllocError;

// Appends a byte of a text, by a reference where it would be markup or the end of a line.
fn push_markup_byte(out: &mut Vec<u8>, byte: u8) -> Result<(), AllocError>
    ensures { OnOk result (out.new.items ≡ out.old.items ++ markup_byte byte) }
{
    match byte {
        b'&' => out.extend_from_slice(b"&amp;"),
        b'<' => out.extend_from_slice(b"&lt;"),
        b'>' => out.extend_from_slice(b"&gt;"),
        b'\r' => out.extend_from_slice(b"&#13;"),
        _ => out.extend_from_slice(&[byte]),
    }
}

// Appends a byte of a text in quotes.
fn push_quoted_byte(out: &mut Vec<u8>, byte: u8) -> Result<(), AllocError>
    ensures { OnOk result (out.new.items ≡ out.old.items ++ quoted_byte byte) }
{
    match byte {
        b'"' => out.extend_from_slice(b"&quot;"),
        b'\'' => out.extend_from_slice(b"&#39;"),
        b'\t' => out.extend_from_slice(b"&#9;"),
        b'\n' => out.extend_from_slice(b"&#10;"),
        _ => push_markup_byte(out, byte),
    }
}

// Appends a byte of a text.
fn push_escaped_byte(out: &mut Vec<u8>, context: Context, byte: u8) -> Result<(), AllocError>
    ensures { OnOk result (out.new.items ≡ out.old.items ++ escaped_byte context byte) }
{
    match context {
        Context::Quotes(quote) => {
            if (byte == b'"' || byte == b'\'') && byte != quote {
                return push_markup_byte(out, byte);
            }
            push_quoted_byte(out, byte)
        }
        Context::Content | Context::EmptyTag => push_markup_byte(out, byte),
    }
}

/// Appends a text.
#[tactic(auto, unfolding(crate::specs::Escaping::escaped))]
pub fn push_escaped(out: &mut Vec<u8>, context: Context, text: &[u8]) -> Result<(), AllocError>
    ensures { OnOk result (out.new.items ≡ out.old.items ++ escaped context text.now) }
{
    for byte in text {
        push_escaped_byte(out, context, *byte)?;
    }
    Ok(())
}

/// Appends a text, with the tags that it needs: an element with an empty-element tag and this name
/// gets an end tag.
pub fn push_written(
    out: &mut Vec<u8>,
    context: Context,
    name: &[u8],
    text: &[u8],
) -> Result<(), AllocError>
    ensures { OnOk result (out.new.items ≡ out.old.items ++ written context name.now text.now) }
{
    match context {
        Context::EmptyTag => {
            out.extend_from_slice(b">")?;
            push_escaped(out, context, text)?;
            out.extend_from_slice(b"</")?;
            out.extend_from_slice(name)?;
            out.extend_from_slice(b">")
        }
        Context::Content | Context::Quotes(_) => push_escaped(out, context, text),
    }
}
