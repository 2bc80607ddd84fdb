//! Laws of Exif data without their locations. They hold for all data, and speak of the definitions
//! alone.

ghost use Rattle.std.specs.Prelude.{◌≡◌, ℕ, List, Ok};
ghost use Rattle.exif_edit_base.specs.Readings.{Read, reading};
ghost use Rattle.exif_locations.specs.declared.unread.Unread.{Unread};
ghost use Rattle.exif_data_locations.specs.Locations.{data_erased};
ghost use Rattle.exif_data_locations.specs.Promises.{ReadsAlike};

/// Of data without their locations exactly the old fields are read, in their order, but those of
/// GPS data where these are erased, and there are no more faults than before. The value of a field
/// is the old one, unless its tag is one of XMP, IPTC, the resources of Photoshop or GeoTIFF.
pub fn all_other_fields_stay()
    ensures { (unread : Unread) (bytes : List ℕ) (read : Read)
        → reading bytes ≡ Ok read
        → ReadsAlike bytes read (reading (data_erased unread bytes).0) }
{}
