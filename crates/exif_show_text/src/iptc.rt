//! The line of an IPTC dataset.

ghost use Rattle.std.specs.Prelude.{◌≡◌, IfOk, string_bytes};
ghost use Rattle.exif_iptc.specs.Values.{content_view, value_view};
ghost use Rattle.exif_show_text.specs.IptcLines.{content_text, iptc_line, name_text};

use exif_decisions::Escaped;
use exif_iptc::{Content, Value};
use std::alloc::{AllocError, Global};

// The name of a dataset, or its numbers where the standard has no name for it.
fn name_text(alloc: Global, value: &Value) -> Result<String, AllocError>
    ensures { IfOk result (λ text. string_bytes text ≡ name_text (value_view value.now)) }
{
    match value.name {
        Some(name) => String::from_str(alloc, name),
        None => {
            let record_number = value.dataset.record_number;
            let number = value.dataset.number;
            format!(in alloc; "{record_number}:{number}")
        }
    }
}

// What a dataset says: a text, a number, or how many bytes.
fn content_text(alloc: Global, content: &Content) -> Result<String, AllocError>
    ensures { IfOk result
        (λ text. string_bytes text ≡ content_text (content_view content.now)) }
{
    match content {
        Content::Text(text) => {
            let text = Escaped(text.as_str());
            format!(in alloc; "{text}")
        }
        Content::Number(number) => format!(in alloc; "{number}"),
        Content::Bytes(bytes) => {
            let len = bytes.len();
            format!(in alloc; "{len} bytes")
        }
    }
}

/// The line of a dataset: its name, and what it says, in which control characters are escaped. It
/// takes the memory of the line.
pub fn iptc_line(alloc: Global, value: &Value) -> Result<String, AllocError>
    ensures { IfOk result (λ line. string_bytes line ≡ iptc_line (value_view value.now)) }
{
    let name = name_text(alloc, value)?;
    let content = content_text(alloc, &value.content)?;
    format!(in alloc; "{name} (IPTC): {content}\n")
}
