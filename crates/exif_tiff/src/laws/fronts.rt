//! Laws of data of which a front was read.

ghost use Rattle.std.specs.Prelude.{ℕ, Bool, List, Option};
ghost use Rattle.exif_tiff.specs.Fronts.{FrontHasHeader, FrontSaysAll, TooLargeIsRefused};

/// Where strict reading meets no fault in a front of data, all the data say the same, whatever
/// follows, in both modes and under any limit: so no more need be read. Data of 2^32 bytes or more
/// are refused as too large.
pub fn a_front_may_say_all()
    ensures answer { (lenient : Bool) (limit : Option ℕ) (front rest : List ℕ)
        → FrontSaysAll lenient limit front rest }
    ensures header { (front rest : List ℕ) → FrontHasHeader front rest }
    ensures too_large { (lenient : Bool) (limit : Option ℕ) (bytes : List ℕ)
        → TooLargeIsRefused lenient limit bytes }
{}
