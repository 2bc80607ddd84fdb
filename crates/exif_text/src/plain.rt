//! The plain text of a value: what is printed where its tag says nothing more.

ghost use Rattle.std.specs.Prelude.{◌≡◌, ℕ, List, Some, codes, ◌++◌};
ghost use Rattle.std.specs.List.{flat_map};
ghost use Rattle.std.specs.Fmt.{WritesOnOk};
ghost use Rattle.exif_text.specs.Quoted.{hex_byte, quoted};
ghost use Rattle.exif_text.specs.Contents.{contents_view};
ghost use Rattle.exif_text.specs.Plain.{bits_text, listed, plain_text};

use crate::contents::Contents;
use crate::quoted::{Quoted, write_hex_byte};
use exif_base::Items;
use std::fmt;
use std::fmt::Display;

/// Contents that print as their plain text, whatever their tag is.
#[derive(Clone, Copy)]
pub struct PlainText<'a>(pub Contents<'a>);

impl fmt::Display for PlainText<'_> {
    ghost output = { λ p. Some (plain_text (contents_view p.0)) };

    fn fmt<W: fmt::Write>(&self, f: &mut fmt::Formatter<W>) -> fmt::Result {
        write_plain(f, self.0)
    }
}

/// Writes the plain text of the contents.
pub fn write_plain<W: fmt::Write>(f: &mut fmt::Formatter<W>, contents: Contents<'_>) -> fmt::Result
    ensures { WritesOnOk W.write_str_gives f.old result
        (plain_text (contents_view contents.entry)) f.new }
{
    match contents {
        Contents::Byte(items) => write_list(f, items),
        Contents::Ascii(texts) => write_texts(f, texts),
        Contents::Text(text) => Quoted(text).fmt(f),
        Contents::Short(items) => write_list(f, items),
        Contents::Long(items) => write_list(f, items),
        Contents::Rational(items) => write_list(f, items),
        Contents::SByte(items) => write_list(f, items),
        Contents::Undefined(bytes) => write_undefined(f, bytes),
        Contents::SShort(items) => write_list(f, items),
        Contents::SLong(items) => write_list(f, items),
        Contents::SRational(items) => write_list(f, items),
        Contents::Float(items) => write_floats(f, items),
        Contents::Double(items) => write_doubles(f, items),
        Contents::Unknown(kind, count, offset) => write!(
            f,
            "unknown value (type={kind}, count={count}, offset=0x{offset:x})"
        ),
    }
}

/// Writes the items with a comma and a space between each two.
fn write_list<T: fmt::Display, W: fmt::Write>(f: &mut fmt::Formatter<W>, items: &[T]) -> fmt::Result
    ensures { (text : T → List ℕ) → ((x : T) → T.output x ≡ Some (text x))
        → WritesOnOk W.write_str_gives f.old result (listed text items.now) f.new }
{
    let Some((first, others)) = items.split_first() else {
        return Ok(());
    };
    write!(f, "{first}")?;
    for item in others {
        write!(f, ", {item}")?;
    }
    Ok(())
}

fn write_texts<W: fmt::Write>(f: &mut fmt::Formatter<W>, texts: &[Items<u8>]) -> fmt::Result
    ensures { WritesOnOk W.write_str_gives f.old result (listed quoted texts.now) f.new }
{
    let Some((first, others)) = texts.split_first() else {
        return Ok(());
    };
    Quoted(first.as_slice()).fmt(f)?;
    for text in others {
        f.write_str(", ")?;
        Quoted(text.as_slice()).fmt(f)?;
    }
    Ok(())
}

fn write_undefined<W: fmt::Write>(f: &mut fmt::Formatter<W>, bytes: &[u8]) -> fmt::Result
    ensures { WritesOnOk W.write_str_gives f.old result
        (codes "0x" ++ flat_map hex_byte bytes.now) f.new }
{
    f.write_str("0x")?;
    for byte in bytes {
        write_hex_byte(f, *byte)?;
    }
    Ok(())
}

fn write_floats<W: fmt::Write>(f: &mut fmt::Formatter<W>, items: &[u32]) -> fmt::Result
    ensures { WritesOnOk W.write_str_gives f.old result (listed (bits_text 8) items.now) f.new }
{
    let Some((first, others)) = items.split_first() else {
        return Ok(());
    };
    Float(*first).fmt(f)?;
    for item in others {
        f.write_str(", ")?;
        Float(*item).fmt(f)?;
    }
    Ok(())
}

fn write_doubles<W: fmt::Write>(f: &mut fmt::Formatter<W>, items: &[u64]) -> fmt::Result
    ensures { WritesOnOk W.write_str_gives f.old result (listed (bits_text 16) items.now) f.new }
{
    let Some((first, others)) = items.split_first() else {
        return Ok(());
    };
    Double(*first).fmt(f)?;
    for item in others {
        f.write_str(", ")?;
        Double(*item).fmt(f)?;
    }
    Ok(())
}

/// The bits of a 32-bit floating point number, which print as eight hexadecimal digits.
#[derive(Clone, Copy)]
struct Float(u32);

impl fmt::Display for Float {
    ghost output = { λ b. Some (bits_text 8 b.0) };

    fn fmt<W: fmt::Write>(&self, f: &mut fmt::Formatter<W>) -> fmt::Result {
        let bits = self.0;
        write!(f, "0x{bits:08x}")
    }
}

/// The bits of a 64-bit floating point number, which print as sixteen hexadecimal digits.
#[derive(Clone, Copy)]
struct Double(u64);

impl fmt::Display for Double {
    ghost output = { λ b. Some (bits_text 16 b.0) };

    fn fmt<W: fmt::Write>(&self, f: &mut fmt::Formatter<W>) -> fmt::Result {
        let bits = self.0;
        write!(f, "0x{bits:016x}")
    }
}
