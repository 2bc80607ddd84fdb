//! Numbers that digits spell.

ghost use Rattle.std.specs.Prelude.{◌≡◌, ◌<◌, ◌≤◌, ◌^◌, IfSome};
ghost use Rattle.std.specs.Option.{option_map};
ghost use Rattle.exif_datetime.specs.Numbers.{both_parts, cut, next_below, number_below};

// A number with one more digit, if it is below a limit then.
fn next_below(limit: u64, number: u64, digit: u8) -> Option<u64>
    requires { number < 2 ^ 48 }
    ensures answer { result ≡ next_below limit number digit }
    ensures below { IfSome result (λ next. next < limit) }
{
    if !digit.is_ascii_digit() {
        return None;
    }
    let next = number * 10 + u64::from(digit - b'0');
    if next < limit { Some(next) } else { None }
}

/// The number that digits spell, if it is below a limit; `None` where there is none, or another
/// byte.
pub fn number_below(limit: u64, digits: &[u8]) -> Option<u64>
    requires some { 0 < limit }
    requires small { limit ≤ 2 ^ 48 }
    ensures answer { result ≡ number_below limit digits.now }
    ensures below { IfSome result (λ number. number < limit) }
{
    if digits.is_empty() {
        return None;
    }
    let mut number = 0;
    for digit in digits {
        number = next_below(limit, number, *digit)?;
    }
    Some(number)
}

/// The parts before and behind the first byte like this, if there is one.
pub fn cut(mark: u8, text: &[u8]) -> Option<(&[u8], &[u8])>
    ensures { option_map both_parts result ≡ cut mark text.now }
{
    for at in 0..text.len() {
        if text[at] == mark {
            return Some((&text[..at], &text[at + 1..]));
        }
    }
    None
}
