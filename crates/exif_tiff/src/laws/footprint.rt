//! Laws of the bytes that reading depends on.

ghost use Rattle.std.specs.Prelude.{ℕ, Bool, List, Option};
ghost use Rattle.exif_tiff.specs.Footprint.{FootprintIsShared, FootprintSettlesAnswer, FootprintSettlesTrace, VisitsWhatIsLookedAt};
ghost use Rattle.exif_base.specs.Bytes.{Reading};

/// Reading looks at the header, at the count, the entries and the next offset of each directory,
/// and at the values that are outside of their entries: of two data of one length that agree there
/// it answers the same, in both modes and under any limit. The directories that it visits are those
/// that it looks at, in their order.
pub fn what_is_not_looked_at_is_free()
    ensures shared { (a b : List ℕ) → FootprintIsShared a b }
    ensures trace { (a b : List ℕ) → FootprintSettlesTrace a b }
    ensures answer { (lenient : Bool) (limit : Option ℕ) (a b : List ℕ)
        → FootprintSettlesAnswer lenient limit a b }
    ensures visited { (number : Reading) (bytes : List ℕ) → VisitsWhatIsLookedAt number bytes }
{}
