//! Texts with spaces around them, up to a width.

ghost use Rattle.std.specs.Prelude.{◌≡◌, unwrap_or};
ghost use Rattle.std.specs.Fmt.{WritesOnOk, WritesStyledOnOk, formatter_spec, spec_align, spec_width};
ghost use Rattle.exif_text.specs.Pad.{pad, places_before};

use std::fmt;
use std::fmt::Alignment;

/// Writes `text` with spaces around it, up to the width that `f` requests, on the side that `f`
/// names, else on `side`. Fill, zeros, sign and precision of `f` are ignored. Where `f` requests
/// nothing, it is the text alone.
pub fn write_padded<W: fmt::Write>(
    f: &mut fmt::Formatter<W>,
    text: &str,
    side: Alignment,
) -> fmt::Result
    ensures writes { WritesOnOk W.write_str_gives f.old result text.now f.new }
    ensures styled { WritesStyledOnOk W.write_str_gives f.old result
        (pad text.now (unwrap_or (spec_width (formatter_spec f.old)) 0)
        (unwrap_or (spec_align (formatter_spec f.old)) side)) f.new }
{
    let width = f.width().unwrap_or(0);
    let align = f.align().unwrap_or(side);
    let missing = width.saturating_sub(text.len());
    let before = places_before(align, missing);
    f.write_repeated(" ", before)?;
    f.write_str(text)?;
    f.write_repeated(" ", missing.saturating_sub(before))
}

/// How many padding characters come before the text.
fn places_before(align: Alignment, missing: usize) -> usize
    ensures { result ≡ places_before align missing }
{
    match align {
        Alignment::Left => 0,
        Alignment::Center => missing / 2,
        Alignment::Right => missing,
    }
}
