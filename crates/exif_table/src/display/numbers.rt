//! Texts that the first numbers of a value choose.

ghost use Rattle.std.specs.Prelude.{◌≡◌};
ghost use Rattle.std.specs.Option.{option_map};
ghost use Rattle.std.specs.Fmt.{WritesOnOk};
ghost use Rattle.exif_text.specs.Contents.{contents_view};
ghost use Rattle.exif_table.specs.Numbers.{area_text, counts_text, focal_length_text, sampling_of, sampling_text};
ghost use Rattle.exif_text.specs.Unsigned.{number_at};

use exif_text::Contents;
use exif_text::plain::write_plain;
use std::fmt;

/// Writes a focal length, of which 0 is unknown.
pub(crate) fn write_focal_length<W: fmt::Write>(
    f: &mut fmt::Formatter<W>,
    contents: Contents<'_>,
) -> fmt::Result
    ensures { WritesOnOk W.write_str_gives f.old result
        (focal_length_text (contents_view contents.entry)) f.new }
{
    match contents.number_at(0) {
        Some(0) => f.write_str("unknown"),
        _ => write_plain(f, contents),
    }
}

/// Writes how often the color components are sampled.
pub(crate) fn write_sampling<W: fmt::Write>(
    f: &mut fmt::Formatter<W>,
    contents: Contents<'_>,
) -> fmt::Result
    ensures { WritesOnOk W.write_str_gives f.old result
        (sampling_text (contents_view contents.entry)) f.new }
{
    match sampling_in(contents) {
        Some(text) => f.write_str(text),
        None => write_plain(f, contents),
    }
}

fn sampling_in(contents: Contents<'_>) -> Option<&'static str>
    ensures { option_map (λ text. text.now) result
        ≡ sampling_of (number_at (contents_view contents.entry) 0)
        (number_at (contents_view contents.entry) 1) }
{
    match (contents.number_at(0)?, contents.number_at(1)?) {
        (1, 1) => Some("full horizontally, full vertically (4:4:4)"),
        (2, 1) => Some("half horizontally, full vertically (4:2:2)"),
        (2, 2) => Some("half horizontally, half vertically (4:2:0)"),
        (4, 1) => Some("quarter horizontally, full vertically (4:1:1)"),
        (4, 2) => Some("quarter horizontally, half vertically"),
        (4, 4) => Some("quarter horizontally, quarter vertically"),
        _ => None,
    }
}

/// Writes a rectangle, a circle or a point.
pub(crate) fn write_area<W: fmt::Write>(
    f: &mut fmt::Formatter<W>,
    contents: Contents<'_>,
) -> fmt::Result
    ensures { WritesOnOk W.write_str_gives f.old result
        (area_text (contents_view contents.entry)) f.new }
{
    let (Some(x), Some(y)) = (contents.number_at(0), contents.number_at(1)) else {
        return write_plain(f, contents);
    };
    match (contents.number_at(2), contents.number_at(3)) {
        (Some(w), Some(h)) => write!(f, "rectangle (x={x}, y={y}, w={w}, h={h})"),
        (Some(d), None) => write!(f, "circle (x={x}, y={y}, d={d})"),
        (None, _) => write!(f, "point (x={x}, y={y})"),
    }
}

/// Writes how many images there were, and how many were used.
pub(crate) fn write_counts<W: fmt::Write>(
    f: &mut fmt::Formatter<W>,
    contents: Contents<'_>,
) -> fmt::Result
    ensures { WritesOnOk W.write_str_gives f.old result
        (counts_text (contents_view contents.entry)) f.new }
{
    match (contents.number_at(0), contents.number_at(1)) {
        (Some(total), Some(used)) => write!(f, "total {total}, used {used}"),
        _ => write_plain(f, contents),
    }
}
