//! Laws of HEIF and TIFF files without their metadata. They hold for all files.

ghost use Rattle.std.specs.Prelude.{◌≡◌, true, Ok};
ghost use Rattle.exif_containers.specs.declared.container.Format.TheVariants.{Heif, Tiff};
ghost use Rattle.exif_inventory_heif.specs.Inventories.{is_heif};
ghost use Rattle.exif_scrub.specs.TiffScrubbing.{only_described};
ghost use Rattle.exif_change.specs.Changes.{keeps_orientation, scrubbed};
ghost use Rattle.exif_change_laws.specs.Leaving.{Emptied, EmptiedTwice, IsAllKnown};

/// Each part that the inventory lists of a HEIF file without its metadata is the picture's, or says
/// nothing, or is among what was left undone, also where the orientation is to be kept.
pub fn what_is_left_of_a_heif_file_is_answered()
    ensures { (s : Emptied Heif) → is_heif s.file ≡ true → IsAllKnown s.change }
{}

/// Where a HEIF file without its metadata is scrubbed again, it stays as it is, and the same is
/// left undone, if it is not refused then.
pub fn a_scrubbed_heif_file_stays()
    ensures { (s : EmptiedTwice) → s.again.change ≡ s.first.change }
{}

/// A TIFF file without its metadata has only tags that describe the picture, and its orientation
/// where that is kept. Where it is scrubbed again, it stays as it is.
pub fn a_scrubbed_tiff_file_is_settled()
    ensures tags { (s : Emptied Tiff)
        → only_described (keeps_orientation s.removed) s.change.file ≡ true }
    ensures again { (s : Emptied Tiff) → scrubbed s.removed s.change.file ≡ Ok s.change }
{}
