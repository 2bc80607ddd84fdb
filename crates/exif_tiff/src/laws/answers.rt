//! Laws of what reading shows.

ghost use Rattle.std.specs.Prelude.{ℕ, Bool, List, Option};
ghost use Rattle.exif_tiff.specs.ReadAnswers.{ShowsReadFields, ShowsNoFault};

/// Fields that are read have texts without zero bytes and are of one of the first eight
/// directories, and strict reading shows fields only where there is no fault.
pub fn answers_show_what_was_read()
    ensures fields { (lenient : Bool) (limit : Option ℕ) (bytes : List ℕ)
        → ShowsReadFields lenient limit bytes }
    ensures strict { (limit : Option ℕ) (bytes : List ℕ) → ShowsNoFault limit bytes }
{}
