//! Looking for what a tag of the first image says.

ghost use Rattle.std.specs.Prelude.{◌≡◌, ◌*◌, ◌^◌, ◌<◌, ◌≤◌, IfSome, option_map};
ghost use Rattle.std.specs.Option.{option_copied};
ghost use Rattle.exif_summary.specs.Coordinates.{angle_in, half_of};
ghost use Rattle.exif_summary.specs.Seen.{angle_view, axis_view, degrees_view};
ghost use Rattle.exif_summary.specs.Finding.{degrees_of, first_text, found, number_of, orientation_of, text_found};

use crate::angles::{Angle, Axis, Degrees};
use exif_types::{Context, Exif, In, Tag, Value};

/// What a tag says, if it is there.
pub fn find_value<'a>(exif: &'a Exif, tag: Tag) -> Option<&'a Value>
    ensures { option_copied result ≡ found exif.now.fields tag.0 tag.1 }
{
    match exif.get_field(tag, In::PRIMARY) {
        Some(field) => Some(&field.value),
        None => None,
    }
}

/// The first number of a tag.
pub fn find_number(exif: &Exif, tag: Tag) -> Option<u32>
    ensures { result ≡ number_of exif.now.fields tag.0 tag.1 }
{
    find_value(exif, tag)?.get_uint(0)
}

/// Which of the eight orientations the picture has.
pub fn find_orientation(exif: &Exif) -> Option<u32>
    ensures { result ≡ orientation_of exif.now.fields }
{
    let number = find_number(exif, Tag::Orientation)?;
    if 0 < number && number < 9 {
        Some(number)
    } else {
        None
    }
}

/// The first text of a value of texts.
fn first_of(value: &Value) -> Option<&[u8]>
    ensures { option_map (λ text. text.now) result ≡ first_text value.now }
{
    match value {
        Value::Ascii(texts) => match texts.as_slice().first() {
            Some(text) => Some(text.as_slice()),
            None => None,
        },
        _ => None,
    }
}

/// The first text of a tag.
pub fn find_text<'a>(exif: &'a Exif, tag: Tag) -> Option<&'a [u8]>
    ensures { option_map (λ text. text.now) result ≡ text_found exif.now.fields tag.0 tag.1 }
{
    first_of(find_value(exif, tag)?)
}

/// The angle of a value of degrees, minutes and seconds, if it is one of at most so many degrees.
fn angle_of(value: &Value, most: u8) -> Option<Angle>
    ensures angle { option_map angle_view result ≡ angle_in most value.now }
    ensures bound { IfSome result (λ a. (0 < a.under) × (a.under < 2 ^ 108)
        × (a.over ≤ 255 * a.under)) }
{
    let Value::Rational(parts) = value else {
        return None;
    };
    let [degrees, minutes, seconds] = parts.as_slice() else {
        return None;
    };
    let angle = Angle::of(*degrees, *minutes, *seconds);
    if angle.is_within(most) {
        Some(angle)
    } else {
        None
    }
}

/// Whether a reference names the negative half, if it names one of the two.
fn half_of(value: &Value, positive: u8, negative: u8) -> Option<bool>
    ensures { result ≡ half_of positive negative value.now }
{
    let Value::Ascii(texts) = value else {
        return None;
    };
    let [text] = texts.as_slice() else {
        return None;
    };
    match text.as_slice() {
        [letter] if *letter == positive => Some(false),
        [letter] if *letter == negative => Some(true),
        _ => None,
    }
}

/// A coordinate of the location.
pub fn find_degrees(exif: &Exif, axis: &Axis) -> Option<Degrees>
    ensures { option_map degrees_view result ≡ degrees_of exif.now.fields (axis_view axis.now) }
{
    let value = find_value(exif, Tag(Context::Gps, axis.value))?;
    let reference = find_value(exif, Tag(Context::Gps, axis.reference))?;
    let angle = angle_of(value, axis.most)?;
    let negative = half_of(reference, axis.positive, axis.negative)?;
    Some(Degrees {
        negative,
        units: angle.units(),
    })
}
