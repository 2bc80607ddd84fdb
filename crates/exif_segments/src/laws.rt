//! Laws of the formats: what is answered by computing is what the trees of the grammars say.

ghost use Rattle.std.specs.Prelude.{ℕ, List};
ghost use Rattle.exif_segments.specs.JpegGrammar.{IsAStream, Stream, StreamIsAnswered};
ghost use Rattle.exif_segments.specs.WebpGrammar.{FileIsAnswered, IsAFile, WebpFile};

/// A JPEG stream is answered as the tree of its units says, and all bytes are those of such a tree.
pub fn jpeg_is_units()
    ensures answered { (s : Stream) → StreamIsAnswered s }
    ensures every { (bytes : List ℕ) → IsAStream bytes }
{}

/// A WebP file is answered as the tree of its chunks says, and all bytes are those of such a tree.
pub fn webp_is_chunks()
    ensures answered { (f : WebpFile) → FileIsAnswered f }
    ensures every { (bytes : List ℕ) → IsAFile bytes }
{}
