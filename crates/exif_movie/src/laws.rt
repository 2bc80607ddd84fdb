//! Laws of the parts of a video. They hold for all files, and are about the definitions alone.

ghost use Rattle.std.specs.Prelude.{◌≡◌, ℕ, List, Ok, length};
ghost use Rattle.exif_movie.specs.Files.{parts_of};
ghost use Rattle.exif_movie.specs.Parts.{AreParts};
ghost use Rattle.exif_movie.specs.declared.part.Part.{Part};

/// The parts of a video are the file: each byte is in one of them, once and in order.
pub fn parts_are_the_file()
    ensures { (file : List ℕ) (parts : List Part)
        → parts_of file ≡ Ok parts → AreParts 0 parts (length file) }
{}
