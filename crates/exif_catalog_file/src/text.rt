//! Bytes as texts.

ghost use Rattle.std.specs.Prelude.{◌≡◌, IfOk};
ghost use Rattle.std.specs.String.{string_bytes};
ghost use Rattle.exif_catalog_file.specs.Text.{latin1, text_of};

use std::alloc::{AllocError, Global};

// The characters whose numbers the bytes are.
fn latin1_of(alloc: Global, bytes: &[u8]) -> Result<String, AllocError>
    ensures { IfOk result (λ t. string_bytes t ≡ latin1 bytes.now) }
{
    let mut text = String::new(alloc);
    for byte in bytes {
        text.push(char::from(*byte))?;
    }
    Ok(text)
}

/// Bytes as a text: as they are where they are UTF-8, else each byte is the character of its
/// number (Latin-1). The only error is out of memory.
pub fn text_of(alloc: Global, bytes: &[u8]) -> Result<String, AllocError>
    ensures { IfOk result (λ t. string_bytes t ≡ text_of bytes.now) }
{
    match std::str::from_utf8(bytes) {
        Ok(text) => String::from_str(alloc, text),
        Err(_) => latin1_of(alloc, bytes),
    }
}
