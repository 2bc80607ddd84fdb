//! TIFF data that were read, with their fields.

ghost use Rattle.std.specs.Prelude.{◌≡◌, All, IfOk};
ghost use Rattle.std.specs.Option.{option_copied};
ghost use Rattle.exif_types.specs.Lookup.{last_named};
ghost use Rattle.exif_types.specs.Sound.{IsRead};

use crate::index::FieldIndex;
use crate::{Field, Fields, In, Tag};
use std::alloc::{AllocError, Global};
use std::marker::Model;

/// TIFF data with the fields that were read of them: what a reader gives. No text in them holds a
/// zero byte, and each directory is one of the first eight of the chain.
///
/// It keeps the data, the decoded values, and an index of the names: 8 bytes a field.
///
/// ```
/// let field = exif.get_field(Tag::Orientation, In::PRIMARY)?;
/// field.value.get_uint(0)
/// ```
#[derive(Drop)]
pub struct Exif {
    buf: Vec<u8>,
    fields: Vec<Field>,
    index: FieldIndex,
    little_endian: bool,
}

impl Model for Exif {
    ghost use Rattle.std.specs.Prelude.{All};
    ghost use Rattle.exif_types.specs.Sound.{IsRead};
    ghost use Rattle.exif_types.specs.Contents.{ExifContents};
    ghost use Rattle.exif_types.specs.Located.{Indexes};

    ghost Value = { ExifContents };

    ghost view = { λ a. record {
      buf = a.buf.items;
      fields = a.fields.items;
      little_endian = a.little_endian;
    } };

    ghost invariant = { λ a. All IsRead a.fields.items × Indexes a.index a.fields.items };
}

/// The data, the fields that were read of them, and whether they are little endian.
pub fn exif_from_parts(
    alloc: Global,
    buf: Vec<u8>,
    fields: Vec<Field>,
    little_endian: bool,
) -> Result<Exif, AllocError>
    requires { All IsRead fields.items }
    ensures { IfOk result (λ exif. exif
        ≡ record { buf = buf.items; fields = fields.items; little_endian = little_endian }) }
{
    let index = FieldIndex::of(alloc, fields.as_slice())?;
    Ok(Exif {
        buf,
        fields,
        index,
        little_endian,
    })
}

impl Exif {
    /// The TIFF data, from their header on: offsets in values count from its front.
    pub fn buf(&self) -> &[u8]
        ensures { result.now ≡ self.now.buf }
    {
        &self.buf
    }

    /// The fields in the order in which they are.
    pub fn fields(&self) -> Fields<'_>
        ensures fields { result ≡ self.now.fields }
        ensures read { All IsRead self.now.fields }
    {
        Fields::new(&self.fields)
    }

    /// The last field with this tag and this directory, found by a binary search. Takes no memory.
    pub fn get_field(&self, tag: Tag, ifd_num: In) -> Option<&Field>
        ensures { option_copied result ≡ last_named self.now.fields tag ifd_num }
    {
        self.index.last_named(&self.fields, tag, ifd_num)
    }

    /// Whether the data are little endian.
    pub fn little_endian(&self) -> bool
        ensures { result ≡ self.now.little_endian }
    {
        self.little_endian
    }
}
