//! Texts of versions.

ghost use Rattle.std.specs.Prelude.{◌≡◌, ℕ, Option};
ghost use Rattle.std.specs.Fmt.{WritesOnOk};
ghost use Rattle.exif_text.specs.Contents.{contents_view};
ghost use Rattle.exif_table.specs.Versions.{exif_version_text, gps_version_text, interop_version_text, version_in};

use exif_text::Contents;
use exif_text::clock::write_two;
use exif_text::digits::two_digits;
use exif_text::plain::write_plain;
use std::fmt;

/// The two numbers of a version of four digits.
fn version_in(contents: Contents<'_>) -> Option<(u8, u8)>
    ensures { result ≡ version_in (contents_view contents.entry) }
{
    match contents {
        Contents::Undefined(bytes) if bytes.len() == 4 => {
            Some((two_digits(bytes, 0)?, two_digits(bytes, 2)?))
        }
        _ => None,
    }
}

/// Writes a version of four digits, without a zero at its end.
pub(crate) fn write_exif_version<W: fmt::Write>(
    f: &mut fmt::Formatter<W>,
    contents: Contents<'_>,
) -> fmt::Result
    ensures { WritesOnOk W.write_str_gives f.old result
        (exif_version_text (contents_view contents.entry)) f.new }
{
    let Some((major, minor)) = version_in(contents) else {
        return write_plain(f, contents);
    };
    write!(f, "{major}.")?;
    if minor % 10 == 0 {
        let tenths = minor / 10;
        write!(f, "{tenths}")
    } else {
        write_two(f, minor)
    }
}

/// Writes a version of four digits.
pub(crate) fn write_interop_version<W: fmt::Write>(
    f: &mut fmt::Formatter<W>,
    contents: Contents<'_>,
) -> fmt::Result
    ensures { WritesOnOk W.write_str_gives f.old result
        (interop_version_text (contents_view contents.entry)) f.new }
{
    let Some((major, minor)) = version_in(contents) else {
        return write_plain(f, contents);
    };
    write!(f, "{major}.")?;
    write_two(f, minor)
}

/// Writes a version of four numbers.
pub(crate) fn write_gps_version<W: fmt::Write>(
    f: &mut fmt::Formatter<W>,
    contents: Contents<'_>,
) -> fmt::Result
    ensures { WritesOnOk W.write_str_gives f.old result
        (gps_version_text (contents_view contents.entry)) f.new }
{
    match contents {
        Contents::Byte([a, b, c, d, ..]) => write!(f, "{a}.{b}.{c}.{d}"),
        _ => write_plain(f, contents),
    }
}
