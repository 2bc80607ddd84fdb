//! What the JSON of a value determines.

ghost use Rattle.std.specs.Prelude.{ℕ};
ghost use Rattle.std.specs.List.{All};
ghost use Rattle.exif_json.specs.Determined.{IsBelow, IsFraction, IsSigned, IsSignedFraction, JsonDetermines};
ghost use Rattle.exif_types.specs.declared.value.Value.TheVariants as value;

/// Values of one type whose JSON is the same hold the same: each number, each fraction as its two
/// numbers, each bit of a floating point number, each byte, and each byte of a text, whether it is
/// written as UTF-8 or as Latin-1. So what [`to_json`](crate::to_json) writes is read back as the
/// values of the fields. The JSON does not contain the offset of opaque bytes, nor a value of an
/// unknown type.
pub fn json_determines_values()
    ensures bytes { JsonDetermines (IsBelow 64) value.Byte }
    ensures texts { JsonDetermines (All (IsBelow 8)) value.Ascii }
    ensures shorts { JsonDetermines (IsBelow 64) value.Short }
    ensures longs { JsonDetermines (IsBelow 64) value.Long }
    ensures fractions { JsonDetermines IsFraction value.Rational }
    ensures signed_bytes { JsonDetermines IsSigned value.SByte }
    ensures any_bytes { (offset : ℕ) → JsonDetermines (IsBelow 8) (λ xs. value.Undefined xs offset) }
    ensures signed_shorts { JsonDetermines IsSigned value.SShort }
    ensures signed_longs { JsonDetermines IsSigned value.SLong }
    ensures signed_fractions { JsonDetermines IsSignedFraction value.SRational }
    ensures floats { JsonDetermines (IsBelow 64) value.Float }
    ensures doubles { JsonDetermines (IsBelow 64) value.Double }
{}
