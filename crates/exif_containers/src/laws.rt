//! Laws of the containers: where the Exif data are, and what a file holds once others are put
//! there.

ghost use Rattle.std.specs.Prelude.{ℕ, List};
ghost use Rattle.exif_containers.specs.Container.{TiffIsWhole};
ghost use Rattle.exif_containers.specs.Located.{DataAreLocated, RefusedAlike};
ghost use Rattle.exif_containers.specs.Replacing.{DataAreReplaced};

/// Bytes that begin as TIFF data do are their own container: all of them are answered.
pub fn tiff_data_stand_alone()
    ensures whole { (bytes : List ℕ) → TiffIsWhole bytes }
{}

/// What [`find_exif`](crate::find_exif) answers of a file of fewer than 2^64 bytes is what
/// [`exif_attr_of_stream`](crate::exif_attr_of_stream) answers, and the bytes of the file at the
/// extents, joined, are the data. What it refuses is refused alike.
pub fn exif_data_are_located()
    ensures located { (file : List ℕ) → DataAreLocated file }
    ensures refused { (file : List ℕ) → RefusedAlike file }
{}

/// Other data of the same length, put at the extents, are what the file holds then, at the same
/// extents: in JPEG streams, WebP files and TIFF data.
pub fn exif_data_can_be_replaced()
    ensures { (file : List ℕ) → DataAreReplaced file }
{}
