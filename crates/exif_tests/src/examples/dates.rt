//! When a picture was taken.

ghost use Rattle.std.specs.Prelude.{◌≡◌, None, Ok, IfOk, IfSome, option_map};
ghost use Rattle.exif_table.specs.declared.context.Context.TheVariants as Context;
ghost use Rattle.exif_summary.specs.Finding.{text_found};
ghost use Rattle.exif_tests.specs.Taken.{IsSpelled};

use exif::{DateTime, Error, Exif, In, Tag, Value};

/// The first text of a tag.
pub fn text(exif: &Exif, tag: Tag) -> Option<&[u8]>
    ensures text { option_map (λ text. text.now) result
        ≡ text_found exif.now.fields tag.0 tag.1 }
{
    let field = exif.get_field(tag, In::PRIMARY)?;
    match &field.value {
        Value::Ascii(texts) => Some(texts.as_slice().first()?.as_slice()),
        _ => None,
    }
}

/// When the picture was taken, with the fraction of the second and the offset from UTC if they
/// are known. A blank date is `None`.
pub fn date_taken(exif: &Exif) -> Result<Option<DateTime>, Error>
    ensures undated { text_found exif.now.fields Context.Exif 0x9003 ≡ None
        → result ≡ Ok None }
    ensures dated { IfOk result (λ taken. IfSome taken
        (IsSpelled (text_found exif.now.fields Context.Exif 0x9003))) }
{
    let Some(date) = text(exif, Tag::DateTimeOriginal) else {
        return Ok(None);
    };
    let mut taken = match DateTime::from_ascii(date) {
        Ok(taken) => taken,
        Err(Error::BlankValue(_)) => return Ok(None),
        Err(error) => return Err(error),
    };
    if let Some(digits) = text(exif, Tag::SubSecTimeOriginal) {
        taken.parse_subsec(digits)?;
    }
    if let Some(offset) = text(exif, Tag::OffsetTimeOriginal) {
        taken.parse_offset(offset)?;
    }
    Ok(Some(taken))
}
