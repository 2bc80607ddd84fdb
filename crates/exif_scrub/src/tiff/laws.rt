//! Laws of scrubbed TIFF files. They hold for all files.

ghost use Rattle.std.specs.Prelude.{◌≡◌, ◌⊎◌, ℕ, Bool, true, List, Ok};
ghost use Rattle.exif_scrub.specs.TiffScrubbing.{file_walked, kept_once, only_described, scrubbed};
ghost use Rattle.exif_scrub.specs.declared.tiff.pass.Pass.TheVariants.{Pictures};

/// A TIFF file without its metadata stays as it is where it is scrubbed again.
pub fn scrubbing_twice_is_once()
    ensures { (keeps_orientation : Bool) (file new : List ℕ)
        → scrubbed keeps_orientation file ≡ Ok new
        → scrubbed keeps_orientation new ≡ Ok new }
{}

/// A TIFF file without its metadata has only tags that describe the picture, in all its
/// directories, each once and with values of its type and count, and no metadata in their JPEG
/// streams. It is zero but for these directories, the values of their tags, and the picture's data.
pub fn only_the_picture_is_left()
    ensures tags { (keeps_orientation : Bool) (file new : List ℕ)
        → scrubbed keeps_orientation file ≡ Ok new
        → only_described keeps_orientation new ≡ true }
    ensures zeros { (keeps_orientation : Bool) (file new : List ℕ)
        → scrubbed keeps_orientation file ≡ Ok new
        → kept_once keeps_orientation new ≡ Ok new }
{}

/// The picture's data are the same: each strip, tile and JPEG stream of the old file is in the new
/// one where it was, with zeros for the metadata of such a stream, or the new file is the old one.
pub fn the_picture_stays()
    ensures { (keeps_orientation : Bool) (file new : List ℕ)
        → scrubbed keeps_orientation file ≡ Ok new
        → (new ≡ file) ⊎ (file_walked Pictures file new ≡ Ok new) }
{}
