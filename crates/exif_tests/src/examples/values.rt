//! Values made, counted and shown.

ghost use Rattle.std.specs.Prelude.{◌≡◌, [], ◌∷◌, IfOk};
ghost use Rattle.exif_table.specs.declared.context.Context.TheVariants as Context;
ghost use Rattle.exif_types.specs.declared.value.Value.TheVariants.{Ascii};
ghost use Rattle.exif_summary.specs.Finding.{number_of};

use exif::{Error, Exif, Field, In, Tag, Value};
use std::alloc::Global;

/// A field with the photographer's name, in ASCII.
pub fn artist(alloc: Global, name: &[u8]) -> Result<Field, Error>
    ensures text { IfOk result (λ field. field.value ≡ Ascii (name.now ∷ [])) }
{
    Ok(Field {
        tag: Tag::Artist,
        ifd_num: In::PRIMARY,
        value: Value::ascii(alloc, &[name])?,
    })
}

/// The width in pixels, if the picture has that field. A value that is not a number is an error.
pub fn width(exif: &Exif) -> Result<Option<u32>, Error>
    ensures number { IfOk result
        (λ width. width ≡ number_of exif.now.fields Context.Exif 0xa002) }
{
    let Some(field) = exif.get_field(Tag::PixelXDimension, In::PRIMARY) else {
        return Ok(None);
    };
    let numbers = field.value.as_uint()?;
    Ok(numbers.get(0))
}

/// The unit of the resolution, or the standard's default if the picture has none.
pub fn resolution_unit(alloc: Global, exif: &Exif) -> Result<String, Error> {
    let tag = Tag::ResolutionUnit;
    let default = tag.default_value(alloc)?;
    let said = exif.get_field(tag, In::PRIMARY).map(|field| &field.value);
    let mut text = String::new(alloc);
    if let Some(value) = said.or(default.as_ref()) {
        text = format!(in alloc; "{}", value.display_as(tag))?;
    }
    Ok(text)
}
