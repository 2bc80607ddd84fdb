//! Laws of the format: what is answered by computing is what the trees of the grammar say.

ghost use Rattle.std.specs.Prelude.{ℕ, List};
ghost use Rattle.exif_formats.specs.JxlGrammar.{FileIsAnswered, IsAFile, JxlFile};

/// A JPEG XL file is answered as the tree of its boxes says, and all bytes are those of such a
/// tree.
pub fn jxl_is_boxes()
    ensures answered { (f : JxlFile) → FileIsAnswered f }
    ensures every { (bytes : List ℕ) → IsAFile bytes }
{}
