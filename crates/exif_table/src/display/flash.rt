//! What a flash did, bit by bit.

ghost use Rattle.std.specs.Prelude.{◌≡◌};
ghost use Rattle.std.specs.Fmt.{WritesOnOk};
ghost use Rattle.exif_text.specs.Contents.{contents_view};
ghost use Rattle.exif_table.specs.Flash.{flash_bits, flash_mode, flash_return, flash_text, only_if};

use exif_text::Contents;
use exif_text::plain::write_plain;
use std::fmt;

/// Writes what a flash did.
pub(crate) fn write_flash<W: fmt::Write>(
    f: &mut fmt::Formatter<W>,
    contents: Contents<'_>,
) -> fmt::Result
    ensures { WritesOnOk W.write_str_gives f.old result
        (flash_text (contents_view contents.entry)) f.new }
{
    match contents.number_at(0) {
        Some(bits) => write_bits(f, bits),
        None => write_plain(f, contents),
    }
}

#[tactic(auto, unfolding(crate::specs::Flash::flash_bits))]
fn write_bits<W: fmt::Write>(f: &mut fmt::Formatter<W>, bits: u32) -> fmt::Result
    ensures { WritesOnOk W.write_str_gives f.old result (flash_bits bits) f.new }
{
    f.write_str(if bits % 2 == 0 { "not fired" } else { "fired" })?;
    f.write_str(flash_return(bits / 2 % 4))?;
    f.write_str(flash_mode(bits / 8 % 4))?;
    f.write_str(only_if(bits / 32 % 2, ", no function present"))?;
    f.write_str(only_if(bits / 64 % 2, ", red-eye reduction"))?;
    f.write_str(only_if(bits / 128, ", unknown MSB bits"))
}

fn flash_return(bits: u32) -> &'static str
    ensures { result.now ≡ flash_return bits }
{
    match bits {
        0 => ", no return light detection function",
        1 => ", return light status 1 (reserved)",
        2 => ", return light not detected",
        _ => ", return light detected",
    }
}

fn flash_mode(bits: u32) -> &'static str
    ensures { result.now ≡ flash_mode bits }
{
    match bits {
        0 => ", auto mode 0 (unknown)",
        1 => ", forced",
        2 => ", suppressed",
        _ => ", auto",
    }
}

fn only_if(bits: u32, text: &'static str) -> &'static str
    ensures { result.now ≡ only_if bits text.now }
{
    if bits == 0 { "" } else { text }
}
