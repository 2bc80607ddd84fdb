//! What holds of files whose locations were erased.

ghost use Rattle.exif_privacy.specs.Promises.{LeftIsAnswered, ReasonsAreItsOwn, TwiceIsOnce};

/// Where no part of the answer would change if it were erased again, the new file erased again is
/// itself, and has the same answer.
pub fn erasing_twice_is_once()
    ensures { TwiceIsOnce }
{}

/// Each part of the new file that would change if it were erased again, or may hold a location for
/// another reason, is in the answer, for each of its reasons.
pub fn what_is_left_is_answered()
    ensures answered { LeftIsAnswered }
    ensures own { ReasonsAreItsOwn }
{}
