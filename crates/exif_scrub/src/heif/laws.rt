//! Laws of HEIF and AVIF files without their metadata. They hold for all files, and speak of the
//! definitions alone.

ghost use Rattle.std.specs.Prelude.{◌≡◌, ℕ, List, Option, Some, Ok, length};
ghost use Rattle.exif_inventory.specs.declared.part.Part.{Part};
ghost use Rattle.exif_inventory_heif.specs.Inventories.{heif_inventory, heif_layout};
ghost use Rattle.exif_scrub.specs.HeifPromises.{AllKnown, PictureStays};
ghost use Rattle.exif_scrub.specs.HeifScrubbing.{scrubbed, settled};

/// A file without its metadata stays as it is where it is scrubbed again, with the same answer.
pub fn scrubbing_twice_is_once()
    ensures { (file new : List ℕ) (left : Option (List Part))
        → scrubbed file ≡ Ok (new, left) → scrubbed new ≡ Ok (new, left) }
{}

/// Each part that the inventory lists of a file without its metadata is the picture's, or says
/// nothing, or is answered: an Exif item has no fields, an XMP item no properties, an item that is
/// not known has zeros, and a box with metadata is free space.
pub fn what_is_left_is_answered()
    ensures scrubbed { (file new : List ℕ) (left : List Part)
        → scrubbed file ≡ Ok (new, Some left)
        → AllKnown new left (heif_inventory new) }
    ensures settled { (file : List ℕ) (left : List Part)
        → settled file ≡ Ok left → AllKnown file left (heif_inventory file) }
{}

/// The new file is as long as the old one, and each part of the old one that is the picture's has
/// its bytes, where they were: but for what boxes hold beside that, which describe pictures or list
/// the items.
pub fn the_picture_stays()
    ensures length { (file new : List ℕ) (left : Option (List Part))
        → scrubbed file ≡ Ok (new, left) → length new ≡ length file }
    ensures bytes { (file new : List ℕ) (left : Option (List Part))
        → scrubbed file ≡ Ok (new, left) → PictureStays file new (heif_layout file) }
{}
