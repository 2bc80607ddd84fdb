//! Laws of what is left in scrubbed files.

ghost use Rattle.std.specs.Prelude.{ℕ, List, true, false};
ghost use Rattle.exif_change.specs.Changed.{Change};
ghost use Rattle.exif_change.specs.declared.scrubbing.Removed.TheVariants.{AllButOrientation, Metadata};
ghost use Rattle.exif_change_laws.specs.KnownBytes.{EachByteIsTold, MadeAnew};
ghost use Rattle.exif_change_laws.specs.Scrubbed.{AllAnswered, IsScrubbedTo};

/// Each part that the inventory lists of a scrubbed JPEG or WebP file is one that its first picture
/// needs, or is answered as left: so nothing stays without a word. Where the orientation is kept,
/// Exif data may be there too.
pub fn what_a_scrubbed_file_holds_is_answered()
    ensures all { (file : List ℕ) (change : Change)
        → IsScrubbedTo Metadata file change → AllAnswered false change }
    ensures kept { (file : List ℕ) (change : Change)
        → IsScrubbedTo AllButOrientation file change → AllAnswered true change }
{}

/// Each byte of a scrubbed JPEG, WebP or PNG file, or of a JPEG XL file with boxes, is one of a part
/// that its first picture needs, whose pieces have the lengths that their standard gives them, or of
/// a part that is answered as left. Where the orientation is kept, Exif data may be there too.
///
/// The parts are those that [`inventory`](exif_lengths::inventory) answers: they follow one another,
/// and together they are the file.
pub fn each_byte_of_a_scrubbed_file_is_told()
    ensures { (s : MadeAnew) → EachByteIsTold s }
{}
