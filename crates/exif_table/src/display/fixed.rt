//! Fixed texts of values.

ghost use Rattle.std.specs.Prelude.{◌≡◌, ◌==◌, ℕ, Option, List};
ghost use Rattle.std.specs.Option.{option_copied, option_map};
ghost use Rattle.std.specs.List.{find};
ghost use Rattle.std.specs.Fmt.{WritesOnOk};
ghost use Rattle.exif_table.specs.Fixed.{texts_view};
ghost use Rattle.exif_text.specs.Contents.{contents_view};
ghost use Rattle.exif_table.specs.FixedText.{chosen_by, fixed_text, reserved, text_for};

use crate::{Choice, FixedTexts};
use exif_text::Contents;
use exif_text::plain::write_plain;
use std::fmt;

/// Writes the text that the value chooses, or that it is reserved.
pub(crate) fn write_fixed<W: fmt::Write>(
    f: &mut fmt::Formatter<W>,
    texts: &FixedTexts,
    contents: Contents<'_>,
) -> fmt::Result
    ensures { WritesOnOk W.write_str_gives f.old result
        (fixed_text (texts_view texts.now) (contents_view contents.entry)) f.new }
{
    let Some(key) = chosen_by(texts.chosen_by, contents) else {
        return write_reserved(f, texts.name, contents);
    };
    match text_for(texts, key) {
        Some(text) => f.write_str(text),
        None => write_reserved(f, texts.name, contents),
    }
}

/// What of the value chooses its text.
fn chosen_by(choice: Choice, contents: Contents<'_>) -> Option<u32>
    ensures { result ≡ chosen_by choice (contents_view contents.entry) }
{
    match choice {
        Choice::FirstNumber => contents.number_at(0),
        Choice::UndefinedByte => widened(contents.undefined_byte()),
        Choice::Letter => widened(contents.letter()),
    }
}

fn widened(byte: Option<u8>) -> Option<u32>
    ensures { result ≡ byte }
{
    match byte {
        Some(byte) => Some(u32::from(byte)),
        None => None,
    }
}

fn text_for(texts: &FixedTexts, key: u32) -> Option<&'static str>
    ensures { option_map (λ t. t.now) result ≡ text_for (texts_view texts.now) key }
{
    match entry_for(texts.texts, key) {
        Some(entry) => Some(entry.1),
        None => None,
    }
}

fn entry_for(
    texts: &'static [(u32, &'static str)],
    key: u32,
) -> Option<&'static (u32, &'static str)>
    ensures { option_copied result ≡ find (λ p. p.0 == key) texts.now }
{
    texts.iter().find(|entry| entry.0 == key)
}

fn write_reserved<W: fmt::Write>(
    f: &mut fmt::Formatter<W>,
    name: &str,
    contents: Contents<'_>,
) -> fmt::Result
    ensures { WritesOnOk W.write_str_gives f.old result
        (reserved name.now (contents_view contents.entry)) f.new }
{
    write!(f, "[reserved {name} ")?;
    write_plain(f, contents)?;
    f.write_str("]")
}
