//! What is read of files that got the Exif data of another picture.

ghost use Rattle.std.specs.Prelude.{◌≡◌, ℕ, List, Ok};
ghost use Rattle.exif_segments.specs.declared.remove.Remove.{Remove};
ghost use Rattle.exif_parts.specs.Written.{Written};
ghost use Rattle.exif_copy.specs.Found.{data_found, exif_found, format_for};
ghost use Rattle.exif_change_laws.specs.Copies.{CopiedOnce, read_again};
ghost use Rattle.exif_change_laws.specs.JxlFound.{JxlIsFound};

use exif_formats::jxl::laws::jxl_is_boxes;
use exif_parts::laws::png_answers_what_was_put;
use exif_rewrite::laws::file_answers_what_was_put;

/// In a JPEG XL file that was written again with new Exif data
/// ([`rewrite_jxl`](exif_parts::rewrite_jxl)) the reader finds these data.
pub fn jxl_answers_what_was_put()
    ensures { (remove : Remove) (payload file : List ℕ) (new : Written)
        → JxlIsFound remove payload file new }
{
    jxl_is_boxes();
}

/// Where the Exif data of a picture are put into a file as they are, as
/// [`copy_exif`](exif_copy::copy_exif) does it, and nothing is left undone, the new file, read in
/// the format that the file had, has these data byte for byte. What is read of them is what is read
/// of the picture: each field, in the same order.
pub fn copied_data_are_read()
    ensures bytes { (c : CopiedOnce) → data_found (format_for c.to) c.new ≡ Ok c.contents.bytes }
    ensures fields { (c : CopiedOnce) → read_again c ≡ exif_found c.from }
{
    file_answers_what_was_put();
    png_answers_what_was_put();
    jxl_answers_what_was_put();
}
