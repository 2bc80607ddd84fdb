//! Laws of texts that are shown, without units: they are parsed back as the values that are shown.

ghost use Rattle.std.specs.Prelude.{◌≡◌, List};
ghost use Rattle.exif_table.specs.declared.kind.TextKind.TheVariants as K;
ghost use Rattle.exif_text.specs.declared.rational.Rational.{Rational as Fraction};
ghost use Rattle.exif_text.specs.declared.rational.SRational.{SRational as SignedFraction};
ghost use Rattle.exif_types.specs.TagRows.{kind_of};
ghost use Rattle.exif_types.specs.declared.tag.Tag.{Tag};
ghost use Rattle.exif_types.specs.declared.value.Value.{Value};
ghost use Rattle.exif_change_laws.specs.Shown.{AreAlike, AreEqual, AreEqualSigned, Fits, HasDecimals, Held, HoldsOne, IsExact, IsExactSigned, IsExposure, IsParsedAs, IsShownAs, IsSingle, IsSpelled, SetsTo, as_decimals, as_shown, as_shown_signed, one, own_text};

/// The plain text of numbers and fractions is parsed as exactly these, for each tag. It is what is
/// shown of tags of which nothing more is known.
pub fn plain_values_are_parsed_back()
    ensures plain { (tag : Tag) (v : Value) → IsSpelled v → IsParsedAs tag (own_text v) v }
    ensures shown { (tag : Tag) (v : Value)
        → kind_of tag ≡ K.Plain → IsSpelled v → IsShownAs tag v v }
{}

/// Decimals are parsed as the fractions that they are, which fit a tag if the old ones do, and are
/// shown as the same decimals again.
pub fn decimals_are_parsed_back()
    ensures fractions { (tag : Tag) (v : Value)
        → HasDecimals tag v → IsShownAs tag v (as_decimals v) }
    ensures fits { (tag : Tag) (v : Value)
        → HasDecimals tag v → Fits tag v → Fits tag (as_decimals v) }
    ensures again { (tag : Tag) (v : Value)
        → HasDecimals tag v → AreAlike tag (as_decimals v) v }
{}

/// The fraction that a decimal is equals the one of which it is shown, where nine places suffice.
pub fn exact_decimals_are_the_same_numbers()
    ensures unsigned { (r : Fraction) → IsExact r.num r.denom → AreEqual (as_shown r) r }
    ensures signed { (r : SignedFraction)
        → IsExactSigned r → AreEqualSigned (as_shown_signed r) r }
{}

/// One fraction is parsed back by the kind of its tag, where no word is shown of it: a decimal, or
/// of an exposure time below one second `1/n`. If no word is shown of the new one either, the same
/// text is shown again, and so it is of each exposure time.
pub fn single_fractions_are_parsed_back()
    ensures parsed { (tag : Tag) (r new : Fraction)
        → IsSingle tag r new → IsShownAs tag (one r) (one new) }
    ensures again { (tag : Tag) (r new : Fraction)
        → IsSingle tag r new → IsSingle tag new new → AreAlike tag (one new) (one r) }
    ensures exposures { (tag : Tag) (r new : Fraction)
        → IsExposure tag r new → AreAlike tag (one new) (one r) }
{}

/// Where what is shown of a field is assigned to its tag, [`set`](exif_setting::set) sets the value
/// that the field has, and of decimals and of `1/n` the fractions that they are.
pub fn shown_values_are_set_again()
    ensures plain { (h : Held)
        → kind_of h.tag ≡ K.Plain → IsSpelled h.field.value → SetsTo h h.field.value }
    ensures decimals { (h : Held)
        → HasDecimals h.tag h.field.value → SetsTo h (as_decimals h.field.value) }
    ensures single { (h : Held) (r new : Fraction) → HoldsOne h r new → SetsTo h (one new) }
{}
