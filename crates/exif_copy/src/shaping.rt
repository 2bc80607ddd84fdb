//! Copied data that describe the picture into which they are put: its orientation and its size.

ghost use Rattle.std.specs.Prelude.{◌≡◌, IfOk};
ghost use Rattle.exif_edit_base.specs.Causes.{Makes};
ghost use Rattle.exif_change.specs.Reading.{fields_read};
ghost use Rattle.exif_copy.specs.Shaped.{fitted, number_told, orientation_for, size_for, upright_unless, with_shape, with_size, with_value};

use exif::{Exif, Field, In, Tag, Value};
use exif_base::Items;
use exif_change::ENTRY_LIMIT;
use exif_edit::remove::erase_field;
use exif_edit_base::Error;
use exif_edit_base::limit::check_limit;
use exif_grow::set_fields;
use std::alloc::{AllocError, Global};

// The number that a picture tells by a field.
fn number_told(own: Option<&Exif>, tag: Tag) -> Option<u32>
    ensures { result ≡ number_told (fields_read own.entry) tag }
{
    let field = own?.get_field(tag, In::PRIMARY)?;
    field.value.get_uint(0)
}

// An orientation that the standard has, or upright.
fn upright_unless(told: Option<u32>) -> u16
    ensures { result ≡ upright_unless told }
{
    match told {
        Some(number) => {
            if 0 < number && number <= 8 {
                number as u16
            } else {
                1
            }
        }
        None => 1,
    }
}

// The orientation of a picture.
fn orientation_for(alloc: Global, own: Option<&Exif>) -> Result<Value, AllocError>
    ensures { IfOk result (λ value. value ≡ orientation_for (fields_read own.entry)) }
{
    let number = upright_unless(number_told(own, Tag::Orientation));
    Ok(Value::Short(Items::from_slice(alloc, &[number])?))
}

// The value of a size in pixels.
fn size_for(alloc: Global, told: Option<u32>) -> Result<Option<Value>, AllocError>
    ensures { IfOk result (λ value. value ≡ size_for told) }
{
    match told {
        Some(number) => Ok(Some(Value::Long(Items::from_slice(alloc, &[number])?))),
        None => Ok(None),
    }
}

// The data without the fields of a name.
fn without(alloc: Global, mut data: Vec<u8>, tag: Tag) -> Result<Vec<u8>, Error>
    ensures { Makes (λ v. v.items) result (with_value tag None data.items) }
{
    erase_field(alloc, data.as_mut_slice(), tag, In::PRIMARY)?;
    Ok(data)
}

// The data with this value in each field of a name, or without these fields.
fn with_value(
    alloc: Global,
    tag: Tag,
    value: Option<Value>,
    data: Vec<u8>,
) -> Result<Vec<u8>, Error>
    ensures { Makes (λ v. v.items) result (with_value tag value data.items) }
{
    let ifd_num = In::PRIMARY;
    match value {
        Some(value) => set_fields(
            alloc,
            data.as_slice(),
            &[Field {
                tag,
                ifd_num,
                value,
            }],
        ),
        None => without(alloc, data, tag),
    }
}

// The same where the data have such a field.
fn fitted(
    alloc: Global,
    exif: &Exif,
    tag: Tag,
    value: Option<Value>,
    data: Vec<u8>,
) -> Result<Vec<u8>, Error>
    ensures { Makes (λ v. v.items) result (fitted exif.now.fields tag value data.items) }
{
    match exif.get_field(tag, In::PRIMARY) {
        Some(_field) => with_value(alloc, tag, value, data),
        None => Ok(data),
    }
}

// The data with a size of a picture in place of their own.
fn with_size(
    alloc: Global,
    exif: &Exif,
    own: Option<&Exif>,
    tag: Tag,
    data: Vec<u8>,
) -> Result<Vec<u8>, Error>
    ensures { Makes (λ v. v.items) result
        (with_size exif.now.fields (fields_read own.entry) tag data.items) }
{
    let value = size_for(alloc, number_told(own, tag))?;
    fitted(alloc, exif, tag, value, data)
}

/// The data of a picture with the orientation and the size of another one, whose own fields these
/// are: each of the five fields that the data have.
pub(crate) fn with_shape(alloc: Global, exif: &Exif, own: Option<&Exif>) -> Result<Vec<u8>, Error>
    ensures { Makes (λ v. v.items) result
        (with_shape exif.now.fields (fields_read own.entry) exif.now.buf) }
{
    check_limit(alloc, exif.buf(), Some(ENTRY_LIMIT))?;
    let data = Vec::from_slice(alloc, exif.buf())?;
    let orientation = Some(orientation_for(alloc, own)?);
    let data = fitted(alloc, exif, Tag::Orientation, orientation, data)?;
    let data = with_size(alloc, exif, own, Tag::PixelXDimension, data)?;
    let data = with_size(alloc, exif, own, Tag::PixelYDimension, data)?;
    let data = with_size(alloc, exif, own, Tag::ImageWidth, data)?;
    with_size(alloc, exif, own, Tag::ImageLength, data)
}
