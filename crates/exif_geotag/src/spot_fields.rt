//! The fields that a picture gets with a location (Exif 2.32, 4.6.6).

ghost use Rattle.std.specs.Prelude.{◌≡◌, ◌++◌, ◌<◌, IfOk, OnOk, string_bytes};
ghost use Rattle.exif_geotag.specs.SpotFields.{altitude_fields, day_text, degrees, distance, field, latitude_fields, longitude_fields, seconds, side, spot_fields, text_field, time_fields};
ghost use Rattle.exif_types.specs.declared.value.Value as value;

use crate::moment::Moment;
use crate::spot::Spot;
use exif_base::Items;
use exif_text::Rational;
use exif_text::date::Date;
use exif_types::{Field, In, Tag, Value};
use std::alloc::{AllocError, Global};

// The equator, in units of 1e-7 degree from the south pole on.
const EQUATOR: u32 = 900_000_000;

// Greenwich, in units of 1e-7 degree from 180 degrees west on.
const GREENWICH: u32 = 1_800_000_000;

// The sea level, in millimetres above 1000 km below it.
const SEA_LEVEL: u32 = 1_000_000_000;

// How many units a degree has.
const DEGREE: u32 = 10_000_000;

// A field of the primary image.
fn field(tag: Tag, value: Value) -> Field
    ensures { result ≡ field tag value }
{
    Field {
        tag,
        ifd_num: In::PRIMARY,
        value,
    }
}

// The same with a text.
fn text_field(alloc: Global, tag: Tag, text: &[u8]) -> Result<Field, AllocError>
    ensures { IfOk result (λ made. made ≡ text_field tag text.now) }
{
    let mut texts = Vec::new(alloc);
    texts.push(Items::from_slice(alloc, text)?)?;
    Ok(field(tag, Value::Ascii(Items::from_vec(texts))))
}

// The same with fractions.
fn fractions_field(alloc: Global, tag: Tag, fractions: &[Rational]) -> Result<Field, AllocError>
    ensures { IfOk result (λ made. made ≡ field tag (value.Value.Rational fractions.now)) }
{
    let fractions = Items::from_slice(alloc, fractions)?;
    Ok(field(tag, Value::Rational(fractions)))
}

// A whole number as a fraction.
fn whole(num: u32) -> Rational
    ensures { result ≡ record { num = num; denom = 1 } }
{
    Rational { num, denom: 1 }
}

// How far two numbers are apart.
fn distance(a: u32, b: u32) -> u32
    ensures { result ≡ distance a b }
{
    if a < b { b - a } else { a - b }
}

// The text of a reference, by the side of its base on which a number is.
fn side<'a>(base: u32, below: &'a [u8], above: &'a [u8], units: u32) -> &'a [u8]
    ensures { result.now ≡ side base below.now above.now units }
{
    if units < base { below } else { above }
}

// Degrees, minutes and seconds of so many units.
fn degrees(units: u32) -> [Rational; 3]
    ensures { result ≡ degrees units }
{
    let minutes = units % DEGREE * 60;
    [
        whole(units / DEGREE),
        whole(minutes / DEGREE),
        Rational {
            num: minutes % DEGREE * 60,
            denom: DEGREE,
        },
    ]
}

// Adds the two fields of a latitude.
fn add_latitude(alloc: Global, units: u32, fields: &mut Vec<Field>) -> Result<(), AllocError>
    ensures { OnOk result (fields.new.items ≡ fields.old.items ++ latitude_fields units) }
{
    let reference = side(EQUATOR, b"S", b"N", units);
    fields.push(text_field(alloc, Tag::GPSLatitudeRef, reference)?)?;
    let parts = degrees(distance(units, EQUATOR));
    fields.push(fractions_field(alloc, Tag::GPSLatitude, &parts)?)?;
    Ok(())
}

// Adds the two fields of a longitude.
fn add_longitude(alloc: Global, units: u32, fields: &mut Vec<Field>) -> Result<(), AllocError>
    ensures { OnOk result (fields.new.items ≡ fields.old.items ++ longitude_fields units) }
{
    let reference = side(GREENWICH, b"W", b"E", units);
    fields.push(text_field(alloc, Tag::GPSLongitudeRef, reference)?)?;
    let parts = degrees(distance(units, GREENWICH));
    fields.push(fractions_field(alloc, Tag::GPSLongitude, &parts)?)?;
    Ok(())
}

// Adds the two fields of an altitude, if it is known.
fn add_altitude(
    alloc: Global,
    elevation: Option<u32>,
    fields: &mut Vec<Field>,
) -> Result<(), AllocError>
    ensures { OnOk result (fields.new.items ≡ fields.old.items ++ altitude_fields elevation) }
{
    let Some(units) = elevation else {
        return Ok(());
    };
    let reference = side(SEA_LEVEL, &[1], &[0], units);
    let reference = Value::Byte(Items::from_slice(alloc, reference)?);
    fields.push(field(Tag::GPSAltitudeRef, reference))?;
    let metres = Rational {
        num: distance(units, SEA_LEVEL),
        denom: 1_000,
    };
    fields.push(fractions_field(alloc, Tag::GPSAltitude, &[metres])?)?;
    Ok(())
}

// A day as the field has it: `2024:05:01`.
fn day_text(alloc: Global, date: Date) -> Result<String, AllocError>
    ensures { IfOk result (λ text. string_bytes text ≡ day_text date) }
{
    let (year, month, day) = (date.year, date.month, date.day);
    format!(in alloc; "{year:04}:{month:02}:{day:02}")
}

// The seconds of a time, with thousandths where it has some.
fn seconds(second: u8, millisecond: u16) -> Rational
    ensures { result ≡ seconds second millisecond }
{
    if millisecond == 0 {
        return whole(u32::from(second));
    }
    Rational {
        num: u32::from(second) * 1_000 + u32::from(millisecond),
        denom: 1_000,
    }
}

// Adds the day and the time.
fn add_time(alloc: Global, moment: Moment, fields: &mut Vec<Field>) -> Result<(), AllocError>
    ensures { OnOk result (fields.new.items ≡ fields.old.items ++ time_fields moment) }
{
    let day = day_text(alloc, moment.date)?;
    fields.push(text_field(alloc, Tag::GPSDateStamp, day.as_bytes())?)?;
    let time = moment.time;
    let parts = [
        whole(u32::from(time.hour)),
        whole(u32::from(time.minute)),
        seconds(time.second, moment.millisecond),
    ];
    fields.push(fractions_field(alloc, Tag::GPSTimeStamp, &parts)?)?;
    Ok(())
}

impl Spot {
    /// The fields that a picture gets with this location: latitude and longitude, the altitude if
    /// it is known, and the day and the time of UTC. It takes their memory.
    pub fn fields(&self, alloc: Global) -> Result<Vec<Field>, AllocError>
        ensures { IfOk result (λ fields. fields.items ≡ spot_fields self.now) }
    {
        let mut fields = Vec::new(alloc);
        add_latitude(alloc, self.fix.latitude, &mut fields)?;
        add_longitude(alloc, self.fix.longitude, &mut fields)?;
        add_altitude(alloc, self.fix.elevation, &mut fields)?;
        add_time(alloc, self.moment, &mut fields)?;
        Ok(fields)
    }
}
