//! Laws of reading.

ghost use Rattle.std.specs.Prelude.{ℕ, Bool, List, Option};
ghost use Rattle.exif_tiff.specs.Trace.{Node};
ghost use Rattle.exif_tiff.specs.Answers.{StrictIsFirstFault};
ghost use Rattle.exif_tiff.specs.Visits.{VisitsAreBounded, ReportsAreBounded, ReportsAreBoundedUnder, LimitBoundsReports, LimitAndLengthBoundReports};
ghost use Rattle.exif_tiff.specs.Limits.{VisitsAreLimited, IsKeptWithin, IsCutPast, LimitIsMet, AnswersWithin, LenientAnswersCut, StrictRefusesCut};
ghost use Rattle.exif_tiff.specs.SoftFaults.{FaultsAreSoft, FaultsAreSoftUnder, PassesSoftFaults, RefusesHardOrSoft, HeaderFaultsAreHard, TooLargeIsExact};

/// Strict reading gives the first fault of lenient reading, and the same fields where there is
/// none, under any limit on the visited entries.
pub fn strict_gives_the_first_fault()
    ensures { (limit : Option ℕ) (bytes : List ℕ) → StrictIsFirstFault limit bytes }
{}

/// The entries visited in one reading, and what it finds, are bounded by the length of the data,
/// and by the limit where there is one.
pub fn reading_is_bounded()
    ensures visits { (bytes : List ℕ) → VisitsAreBounded bytes }
    ensures reports { (bytes : List ℕ) → ReportsAreBounded bytes }
    ensures any_limit { (limit : Option ℕ) (bytes : List ℕ)
        → ReportsAreBoundedUnder limit bytes }
    ensures limited { (n : ℕ) (bytes : List ℕ) → LimitBoundsReports n bytes }
    ensures least { (n : ℕ) (bytes : List ℕ) → LimitAndLengthBoundReports n bytes }
{}

/// A limit cuts what data hold just before the first visit over it, where its fault stands alone,
/// and changes nothing where there are no more entries to visit. Lenient reading answers what
/// was before the cut, and strict reading refuses for the limit exactly where no other fault
/// was there.
pub fn limits_cut_readings()
    ensures visits { (n : ℕ) (nodes : List Node) → VisitsAreLimited n nodes }
    ensures within { (n : ℕ) (nodes : List Node) → IsKeptWithin n nodes }
    ensures past { (n : ℕ) (nodes : List Node) → IsCutPast n nodes }
    ensures met { (n : ℕ) (bytes : List ℕ) → LimitIsMet n bytes }
    ensures unchanged { (n : ℕ) (bytes : List ℕ) → AnswersWithin n bytes }
    ensures lenient { (n : ℕ) (bytes : List ℕ) → LenientAnswersCut n bytes }
    ensures strict { (n : ℕ) (bytes : List ℕ) → StrictRefusesCut n bytes }
{}

/// The faults that data hold are the seven soft ones, and with a limit an eighth: reading passes
/// over these alone. A header's faults are the four hard ones, and data are too large exactly
/// where they have more than 4,294,967,295 bytes.
pub fn faults_are_hard_or_soft()
    ensures soft { (bytes : List ℕ) → FaultsAreSoft bytes }
    ensures limited { (limit : Option ℕ) (bytes : List ℕ) → FaultsAreSoftUnder limit bytes }
    ensures passed { (limit : Option ℕ) (bytes : List ℕ) → PassesSoftFaults limit bytes }
    ensures refused { (lenient : Bool) (limit : Option ℕ) (bytes : List ℕ)
        → RefusesHardOrSoft lenient limit bytes }
    ensures hard { (bytes : List ℕ) → HeaderFaultsAreHard bytes }
    ensures too_large { (bytes : List ℕ) → TooLargeIsExact bytes }
{}
