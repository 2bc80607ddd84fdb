//! Laws of reading files. They hold for all bytes, and speak of the definitions alone. Those of
//! TIFF data are read beside these.

ghost use Rattle.std.specs.Prelude.{ℕ, List, Option};
ghost use Rattle.exif_reader.specs.Files.{StrictIsFirstFaultOfFile};

use exif_tiff::laws::strict_gives_the_first_fault;

/// Strict reading of a file gives the first fault of lenient reading, or the same fields where
/// there is none; a refusal of the container is the answer in both modes.
pub fn strict_gives_the_first_fault_of_a_file()
    ensures { (limit : Option ℕ) (bytes : List ℕ) → StrictIsFirstFaultOfFile limit bytes }
{
    strict_gives_the_first_fault();
}
