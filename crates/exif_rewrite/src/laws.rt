//! Laws of files that are written again, whatever container they are. Those of JPEG and WebP files
//! are in `exif_parts`.

ghost use Rattle.std.specs.Prelude.{ℕ, List, Option};
ghost use Rattle.exif_segments.specs.declared.remove.Remove.{Remove};
ghost use Rattle.exif_rewrite.specs.FileLaws.{IsFound, IsSettled};

use exif_parts::laws::{
    jpeg_answers_what_was_put, jpeg_twice_is_once, webp_answers_what_was_put, webp_twice_is_once,
};

/// Reading a file that was written again finds the new Exif data, or that there are none.
pub fn file_answers_what_was_put()
    ensures { (remove : Remove) (put : Option (List ℕ)) (bytes : List ℕ)
        → IsFound remove put bytes }
{
    jpeg_answers_what_was_put();
    webp_answers_what_was_put();
}

/// A file that was written again stays as it is when it is so written again.
pub fn file_twice_is_once()
    ensures { (remove : Remove) (put : Option (List ℕ)) (bytes : List ℕ)
        → IsSettled remove put bytes }
{
    jpeg_twice_is_once();
    webp_answers_what_was_put();
    webp_twice_is_once();
}
