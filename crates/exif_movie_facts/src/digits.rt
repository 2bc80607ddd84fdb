//! Decimal numbers, exactly.

ghost use Rattle.std.specs.Prelude.{◌≡◌, ◌≤◌, ◌^◌, length, false, IfSome};
ghost use Rattle.exif_movie_facts.specs.Digits.{appended, digit_count, is_digit, is_full};

// The largest value and the largest scale to which a digit is appended.
const MAX_APPENDABLE: u64 = 1_000_000_000_000_000;

/// A number as a fraction: `value` units, of which `scale` are one.
#[derive(Clone, Copy, Debug, PartialEq, Eq)]
pub struct Count {
    /// The number of units.
    pub value: u64,
    /// How many units are one.
    pub scale: u64,
}

// Whether a byte is a digit.
fn is_digit(b: u8) -> bool
    ensures { result ≡ is_digit b }
{
    b'0' <= b && b <= b'9'
}

/// How many digits the bytes begin with.
pub fn digit_count(bytes: &[u8]) -> usize
    ensures value { result ≡ digit_count bytes.now }
    ensures most { result ≤ length bytes.now }
{
    let mut n = 0;
    for b in bytes {
        if !is_digit(*b) {
            return n;
        }
        n += 1;
    }
    n
}

// Whether a number is too large for another digit, or its unit is too small.
fn is_full(value: u64, scale: u64) -> bool
    ensures value { result ≡ is_full value scale }
    ensures large { result ≡ false → value ≤ 10 ^ 15 }
    ensures fine { result ≡ false → scale ≤ 10 ^ 15 }
{
    value > MAX_APPENDABLE || scale > MAX_APPENDABLE
}

/// A number with digits appended; with each the unit becomes a tenth of what it was.
///
/// `None` if the value or the scale is over 10^15 before the last digit.
/// A digit is the low four bits of its byte (ASCII).
pub fn appended(start: Count, digits: &[u8]) -> Option<Count>
    requires value { start.value ≤ 10 ^ 17 }
    requires scale { start.scale ≤ 10 ^ 17 }
    ensures value { result ≡ appended start.value start.scale digits.now }
    ensures most { IfSome result (λ count. count.value ≤ 10 ^ 17) }
    ensures fine { IfSome result (λ count. count.scale ≤ 10 ^ 17) }
{
    let mut value = start.value;
    let mut scale = start.scale;
    for b in digits {
        if is_full(value, scale) {
            return None;
        }
        value = 10 * value + u64::from(*b % 16);
        scale = 10 * scale;
    }
    Some(Count { value, scale })
}
