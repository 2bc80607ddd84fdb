//! Laws of changed files. They hold for all files, and speak of the definitions alone.

ghost use Rattle.std.specs.Prelude.{ℕ, ◌≡◌, ◌<◌, ◌^◌, List, Option, None, Some, Ok, length, take};
ghost use Rattle.exif_containers.specs.Container.{container_answer, format_in};
ghost use Rattle.exif_containers.specs.declared.container.Format.TheVariants.{Jpeg};
ghost use Rattle.exif_rewrite.specs.FileLaws.{AnswersPut};
ghost use Rattle.exif_change.specs.Changed.{whole};
ghost use Rattle.exif_change.specs.Changes.{kept, scrubbed};
ghost use Rattle.exif_change.specs.declared.scrubbing.Removed.TheVariants.{AllButOrientation, Metadata};

/// Of a JPEG file without its metadata no Exif data are read.
pub fn a_scrubbed_jpeg_file_has_no_exif()
    ensures { (file new : List ℕ)
        → format_in file ≡ Some Jpeg → format_in (take 4096 file) ≡ Some Jpeg
        → scrubbed Metadata file ≡ Ok (whole new) → length new < 2 ^ 64
        → AnswersPut None (container_answer new) }
{}

/// Where the orientation is kept, the Exif data that are read of a JPEG file are those of exactly
/// the orientation.
pub fn a_scrubbed_jpeg_file_keeps_the_orientation()
    ensures { (file new : List ℕ) (put : Option (List ℕ))
        → format_in file ≡ Some Jpeg → format_in (take 4096 file) ≡ Some Jpeg
        → kept AllButOrientation file ≡ Ok put
        → scrubbed AllButOrientation file ≡ Ok (whole new) → length new < 2 ^ 64
        → AnswersPut put (container_answer new) }
{}
