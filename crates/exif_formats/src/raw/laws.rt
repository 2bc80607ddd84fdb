//! Laws of the formats: what is answered by computing is what the trees of the grammars say.

ghost use Rattle.std.specs.Prelude.{ℕ, List};
ghost use Rattle.exif_formats.specs.Cr3Grammar as cr3;
ghost use Rattle.exif_formats.specs.RafGrammar as raf;

/// A RAF file is answered as its tree says, and all bytes are those of such a tree.
pub fn raf_is_a_header_and_a_stream()
    ensures answered { (f : raf.RafFile) → raf.FileIsAnswered f }
    ensures every { (bytes : List ℕ) → raf.IsAFile bytes }
{}

/// The first box of a type is found as the tree of the boxes says, and all bytes are those of such
/// a tree: it is so that `moov`, `uuid`, `CMT1`, `CMT2` and `CMT4` are found.
pub fn boxes_are_found_by_type()
    ensures answered { (name usertype : List ℕ) (bs : cr3.Boxes)
        → cr3.BoxesAreAnswered name usertype bs }
    ensures every { (name usertype bytes : List ℕ) → cr3.AreTheBoxes name usertype bytes }
{}

/// A CR3 file of fewer than 2^64 bytes has the `moov` that its tree says, and all bytes are those
/// of such a tree.
pub fn cr3_is_boxes()
    ensures answered { (f : cr3.Cr3File) → cr3.FileIsAnswered f }
    ensures every { (bytes : List ℕ) → cr3.IsAFile bytes }
{}
