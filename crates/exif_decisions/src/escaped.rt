//! Names and values as they are printed for people.

ghost use Rattle.std.specs.Prelude.{◌≡◌, IfOk, Some, drop, string_bytes, take};
ghost use Rattle.std.specs.Fmt.{WritesOnOk};
ghost use Rattle.std.specs.Str.{IsUtf8};
ghost use Rattle.std.specs.Str.Lossy.{utf8_valid_len};
ghost use Rattle.exif_decisions.specs.Escaping.{escaped_char, escaped_other, escaped_text, marked, marked_first, readable};
ghost use Rattle.exif_decisions.specs.Rules.{is_unreadable};

use std::alloc::{AllocError, Global};
use std::fmt;

/// A text in which control characters are escaped, so that it cannot change what a terminal shows.
#[derive(Clone, Copy)]
pub struct Escaped<'a>(pub &'a str);

impl fmt::Display for Escaped<'_> {
    ghost output = { λ escaped. Some (escaped_text escaped.0.now) };

    fn fmt<W: fmt::Write>(&self, f: &mut fmt::Formatter<W>) -> fmt::Result {
        write_text(f, self.0)
    }
}

// Writes a text with its control characters escaped.
fn write_text<W: fmt::Write>(f: &mut fmt::Formatter<W>, text: &str) -> fmt::Result
    ensures { WritesOnOk W.write_str_gives f.old result (escaped_text text.now) f.new }
{
    for c in text.chars() {
        write_escaped(f, c)?;
    }
    Ok(())
}

// Writes a character, escaped where it is a control character.
fn write_escaped<W: fmt::Write>(f: &mut fmt::Formatter<W>, c: char) -> fmt::Result
    ensures { WritesOnOk W.write_str_gives f.old result (escaped_char c) f.new }
{
    match c {
        '\n' => f.write_str("\\n"),
        '\r' => f.write_str("\\r"),
        '\t' => f.write_str("\\t"),
        // what `readable` writes of a byte: its two digits follow
        '\0' => f.write_str("\\x"),
        _ => write_other(f, c),
    }
}

// Writes a character, or its number behind `\x` where it is a control character.
fn write_other<W: fmt::Write>(f: &mut fmt::Formatter<W>, c: char) -> fmt::Result
    ensures { WritesOnOk W.write_str_gives f.old result (escaped_other c) f.new }
{
    if !c.is_control() {
        return f.write_char(c);
    }
    let code = u32::from(c);
    write!(f, "\\x{code:02x}")
}

/// A name as text. A byte that is no UTF-8 becomes a zero character and its two hexadecimal digits:
/// no file has such a name, so that none is opened by it, and [`Escaped`] prints it as `\xff`.
pub fn readable(alloc: Global, name: &[u8]) -> Result<String, AllocError>
    ensures text { IfOk result (λ text. string_bytes text ≡ readable name.now) }
    ensures utf8 { IsUtf8 name.now → IfOk result (λ text. string_bytes text ≡ name.now) }
{
    let mut text = String::with_capacity(alloc, name.len())?;
    let mut rest = name;
    while !rest.is_empty() {
        let (front, behind) = front_of(rest);
        text.push_str(front)?;
        text.push_str(marked_first(alloc, behind)?.as_str())?;
        rest = without_first(behind);
    }
    Ok(text)
}

// The longest front of bytes that is UTF-8, and what is behind it.
fn front_of(bytes: &[u8]) -> (&str, &[u8])
    ensures front { result.0.now ≡ take (utf8_valid_len bytes.now) bytes.now }
    ensures behind { result.1.now ≡ drop (utf8_valid_len bytes.now) bytes.now }
{
    match std::str::from_utf8(bytes) {
        Ok(text) => (text, &[]),
        Err(error) => {
            let (front, behind) = bytes.split_at(error.valid_up_to());
            (std::str::from_utf8(front).unwrap_or(""), behind)
        }
    }
}

// Bytes without the first, if there is one.
fn without_first(bytes: &[u8]) -> &[u8]
    ensures { result.now ≡ drop 1 bytes.now }
{
    match bytes.split_first() {
        Some((_first, others)) => others,
        None => &[],
    }
}

// The first of bytes as `readable` writes it where it is no UTF-8; nothing where there is none.
fn marked_first(alloc: Global, bytes: &[u8]) -> Result<String, AllocError>
    ensures { IfOk result (λ text. string_bytes text ≡ marked_first bytes.now) }
{
    match bytes.first() {
        Some(byte) => marked(alloc, *byte),
        None => Ok(String::new(alloc)),
    }
}

// A byte as `readable` writes it where it is no UTF-8.
fn marked(alloc: Global, byte: u8) -> Result<String, AllocError>
    ensures { IfOk result (λ text. string_bytes text ≡ marked byte) }
{
    format!(in alloc; "\0{byte:02x}")
}

/// Whether a name is one that [`readable`] made of bytes that are no UTF-8.
pub fn is_unreadable(name: &str) -> bool
    ensures { result ≡ is_unreadable name.now }
{
    name.as_bytes().iter().any(|byte| *byte == 0)
}
