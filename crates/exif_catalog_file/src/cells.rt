//! The text of an answer: a line for a row, whose values have tabs between them.

ghost use Rattle.std.specs.Prelude.{◌≡◌, ◌++◌, OnOk};
ghost use Rattle.exif_catalog_file.specs.Cells.{begins_word, gap_before, is_query, is_word_byte, tsv_byte, tsv_field};
ghost use Rattle.exif_catalog_file.specs.Shown.{Adds};

use sqlite::types::ValueRef;
use std::alloc::{AllocError, Global};

// Whether a byte goes on with a word of SQL.
fn is_word_byte(byte: u8) -> bool
    ensures { result ≡ is_word_byte byte }
{
    byte.is_ascii_alphanumeric() || byte == b'_' || byte >= 128
}

// Whether a text begins with a word, whatever the case of its letters.
fn begins_word(text: &[u8], word: &[u8]) -> bool
    ensures { result ≡ begins_word text.now word.now }
{
    match (text, word) {
        ([], []) => true,
        ([], [_, ..]) => false,
        ([next, ..], []) => !is_word_byte(*next),
        ([byte, rest @ ..], [letter, letters @ ..]) => {
            byte.eq_ignore_ascii_case(letter) && begins_word(rest, letters)
        }
    }
}

/// Whether a text begins with SELECT or WITH, as queries do.
pub fn is_query(sql: &str) -> bool
    ensures { result ≡ is_query sql.now }
{
    let text = sql.trim_start().as_bytes();
    begins_word(text, b"select") || begins_word(text, b"with")
}

// Adds a byte of a value.
fn push_byte(line: &mut Vec<u8>, byte: u8) -> Result<(), AllocError>
    ensures { OnOk result (line.new.items ≡ line.old.items ++ tsv_byte byte) }
{
    match byte {
        b'\t' => line.extend_from_slice(b"\\t"),
        b'\n' => line.extend_from_slice(b"\\n"),
        b'\r' => line.extend_from_slice(b"\\r"),
        b'\\' => line.extend_from_slice(b"\\\\"),
        byte => Ok(line.push(byte)?),
    }
}

/// Adds what is before a value of a line.
pub(crate) fn push_gap(line: &mut Vec<u8>, at: usize) -> Result<(), AllocError>
    ensures { OnOk result (line.new.items ≡ line.old.items ++ gap_before at) }
{
    if at > 0 {
        line.push(b'\t')?;
    }
    Ok(())
}

/// Adds a value to a line: a tab, a line feed, a carriage return and a backslash are written as
/// `\t`, `\n`, `\r` and `\\`. The only error is out of memory.
pub fn push_text(line: &mut Vec<u8>, bytes: &[u8]) -> Result<(), AllocError>
    ensures { OnOk result (line.new.items ≡ line.old.items ++ tsv_field bytes.now) }
{
    for byte in bytes {
        push_byte(line, *byte)?;
    }
    Ok(())
}

// Adds a value: nothing for NULL, and the bytes of a blob as they are.
pub(crate) fn push_value(
    alloc: Global,
    line: &mut Vec<u8>,
    value: ValueRef<'_>,
) -> Result<(), AllocError>
    ensures { OnOk result (Adds value.entry line.old.items line.new.items) }
{
    match value {
        ValueRef::Null => Ok(()),
        ValueRef::Int(number) => {
            let text = format!(in alloc; "{number}")?;
            push_text(line, text.as_bytes())
        }
        ValueRef::Real(number) => {
            let text = format!(in alloc; "{number:?}")?;
            push_text(line, text.as_bytes())
        }
        ValueRef::Text(bytes) | ValueRef::Blob(bytes) => push_text(line, bytes),
    }
}
