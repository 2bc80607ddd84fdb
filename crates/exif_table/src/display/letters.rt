//! Texts that bytes and letters choose.

ghost use Rattle.std.specs.Prelude.{◌≡◌};
ghost use Rattle.std.specs.Option.{option_map};
ghost use Rattle.std.specs.Fmt.{WritesOnOk};
ghost use Rattle.exif_text.specs.Contents.{contents_view};
ghost use Rattle.exif_table.specs.Letters.{capital_text, component, components_text, date_in, date_stamp_text, undefined_text};

use exif_text::clock::write_date;
use exif_text::date::{Date, read_date};
use exif_text::plain::write_plain;
use exif_text::{Contents, Quoted};
use std::fmt;
use std::fmt::Display;

/// Writes the letters of color components.
pub(crate) fn write_components<W: fmt::Write>(
    f: &mut fmt::Formatter<W>,
    contents: Contents<'_>,
) -> fmt::Result
    ensures { WritesOnOk W.write_str_gives f.old result
        (components_text (contents_view contents.entry)) f.new }
{
    let Contents::Undefined(bytes) = contents else {
        return write_plain(f, contents);
    };
    for byte in bytes {
        f.write_str(component(*byte))?;
    }
    Ok(())
}

fn component(byte: u8) -> &'static str
    ensures { result.now ≡ component byte }
{
    match byte {
        0 => "_",
        1 => "Y",
        2 => "Cb",
        3 => "Cr",
        4 => "R",
        5 => "G",
        6 => "B",
        _ => "?",
    }
}

/// Writes a capital letter.
pub(crate) fn write_capital<W: fmt::Write>(
    f: &mut fmt::Formatter<W>,
    contents: Contents<'_>,
) -> fmt::Result
    ensures { WritesOnOk W.write_str_gives f.old result
        (capital_text (contents_view contents.entry)) f.new }
{
    match contents.letter() {
        Some(letter @ b'A'..=b'Z') => f.write_char(char::from(letter)),
        _ => write_plain(f, contents),
    }
}

/// Writes a date, whose digits are between colons.
pub(crate) fn write_date_stamp<W: fmt::Write>(
    f: &mut fmt::Formatter<W>,
    contents: Contents<'_>,
) -> fmt::Result
    ensures { WritesOnOk W.write_str_gives f.old result
        (date_stamp_text (contents_view contents.entry)) f.new }
{
    let Some(text) = contents.first_text() else {
        return write_plain(f, contents);
    };
    match date_in(text) {
        Some(date) => write_date(f, date),
        None => write_plain(f, contents),
    }
}

/// The date that `2016:05:04` spells. More bytes are ignored.
fn date_in(text: &[u8]) -> Option<Date>
    ensures { result ≡ date_in text.now }
{
    if text.len() < 10 || text[4] != b':' || text[7] != b':' {
        return None;
    }
    read_date(text).ok()
}

/// Writes bytes of any meaning in quotes.
pub(crate) fn write_undefined_text<W: fmt::Write>(
    f: &mut fmt::Formatter<W>,
    contents: Contents<'_>,
) -> fmt::Result
    ensures { WritesOnOk W.write_str_gives f.old result
        (undefined_text (contents_view contents.entry)) f.new }
{
    match contents {
        Contents::Undefined(bytes) => Quoted(bytes).fmt(f),
        _ => write_plain(f, contents),
    }
}
