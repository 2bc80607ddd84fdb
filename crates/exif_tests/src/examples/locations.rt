//! Where a picture was taken, in fractions: nothing is rounded.

ghost use Rattle.std.specs.Prelude.{◌≡◌, Some, IfSome};
ghost use Rattle.exif_table.specs.declared.context.Context.TheVariants as Context;
ghost use Rattle.exif_types.specs.declared.value.Value.TheVariants as Value;
ghost use Rattle.exif_summary.specs.Finding.{found};

use crate::examples::dates::text;
use exif::{Exif, In, Rational, Tag, Value};
use std::fmt;

/// A latitude or a longitude.
#[derive(Clone, Copy)]
pub struct Angle {
    /// Degrees, minutes and seconds.
    pub parts: [Rational; 3],
    /// `N` or `S`, `E` or `W`.
    pub half: char,
}

impl fmt::Display for Angle {
    fn fmt<W: fmt::Write>(&self, f: &mut fmt::Formatter<W>) -> fmt::Result {
        let [degrees, minutes, seconds] = self.parts;
        let (degrees, minutes) = (degrees.decimal(), minutes.decimal());
        write!(
            f,
            "{degrees}° {minutes}' {}\" {}",
            seconds.decimal(),
            self.half
        )
    }
}

/// The latitude and the longitude of the location.
pub fn location(exif: &Exif) -> Option<(Angle, Angle)>
    ensures latitude { IfSome result (λ location.
        found exif.now.fields Context.Gps 2 ≡ Some (Value.Rational location.0.parts)) }
    ensures longitude { IfSome result (λ location.
        found exif.now.fields Context.Gps 4 ≡ Some (Value.Rational location.1.parts)) }
{
    let latitude = angle_of(exif, Tag::GPSLatitude, Tag::GPSLatitudeRef)?;
    let longitude = angle_of(exif, Tag::GPSLongitude, Tag::GPSLongitudeRef)?;
    Some((latitude, longitude))
}

fn angle_of(exif: &Exif, tag: Tag, reference: Tag) -> Option<Angle>
    ensures { IfSome result (λ angle.
        found exif.now.fields tag.0 tag.1 ≡ Some (Value.Rational angle.parts)) }
{
    let half = *text(exif, reference)?.first()?;
    let field = exif.get_field(tag, In::PRIMARY)?;
    let Value::Rational(parts) = &field.value else {
        return None;
    };
    let [degrees, minutes, seconds] = parts.as_slice() else {
        return None;
    };
    Some(Angle {
        parts: [*degrees, *minutes, *seconds],
        half: char::from(half),
    })
}
