//! What follows for edits where reading looks at no byte of the data as two things, as in every
//! image that is written of texts without zero bytes: each field is unshared, and GPS data are if
//! reading looks at all of them, so no edit is refused as shared. The laws hold for all bytes, and
//! speak of the definitions alone.
ghost use Rattle.std.specs.Prelude.{◌≡◌, ℕ, List, None};
ghost use Rattle.exif_base.specs.declared.endian.Order.{Order as Endian};
ghost use Rattle.exif_text.specs.declared.ifd.In.{In as Ifd};
ghost use Rattle.exif_types.specs.declared.tag.Tag.{Tag as Name};
ghost use Rattle.exif_types.specs.declared.value.Value.{Value as Content};
ghost use Rattle.exif_layout.specs.Groups.{Group};
ghost use Rattle.exif_layout.specs.Ranged.{AreRanged, HavePlainTexts};
ghost use Rattle.exif_layout.specs.Refused.{write_fault};
ghost use Rattle.exif_change_laws.specs.Apart.{AreErasedApart, AreErasedInImage, EachStandsAlone, IsSetApart, IsSetInImage, LastStandsAlone, GpsStandsAlone};
ghost use Rattle.exif_change_laws.specs.FieldsApart.{FieldsAreErasedApart};

/// Where reading looks at no byte of the data as two things, each field is unshared, so the last
/// of each name does, and GPS data do, if reading looks at all of them.
pub fn what_is_looked_at_once_stands_alone()
    ensures each { (bytes : List ℕ) → EachStandsAlone bytes }
    ensures last { (tag : Name) (k : Ifd) (bytes : List ℕ) → LastStandsAlone tag k bytes }
    ensures offsets { (bytes : List ℕ) → GpsStandsAlone bytes }
{}

/// So a value is set there if it fits, and GPS data are erased if reading looks at all of them:
/// neither edit is refused as shared. Nor is it in an image, the bytes that are written of groups,
/// where no pushed encoded holds a zero byte. The numbers of the value fit their types, its texts
/// hold no zero byte, and its tag's number names no child directory.
pub fn what_is_looked_at_once_is_edited()
    ensures values { (tag : Name) (k : Ifd) (value : Content) (bytes : List ℕ)
        → IsSetApart tag k value bytes }
    ensures offsets { (bytes : List ℕ) → AreErasedApart bytes }
    ensures values_in_images { (tag : Name) (k : Ifd) (value : Content) (order : Endian)
        (groups : List Group)
        → AreRanged groups → HavePlainTexts groups → write_fault groups ≡ None
        → IsSetInImage tag k value order groups }
    ensures offsets_in_images { (order : Endian) (groups : List Group)
        → AreRanged groups → HavePlainTexts groups → write_fault groups ≡ None
        → AreErasedInImage order groups }
{}

/// Where reading looks at no byte of the data as two things, the fields of a name are erased, and
/// never refused as shared. Their tag is none whose values are offsets of other bytes.
pub fn fields_looked_at_once_are_erased()
    ensures { (tag : Name) (k : Ifd) (bytes : List ℕ) → FieldsAreErasedApart tag k bytes }
{}
