//! Fractions of a second.

ghost use Rattle.std.specs.Prelude.{◌≡◌, ◌≤◌, ◌==◌, length, not, IsTrue};
ghost use Rattle.std.specs.List.{list_all, prefix_len};
ghost use Rattle.std.specs.Char.{is_ascii_digit};
ghost use Rattle.exif_text.specs.Subsec.{nanoseconds, parse_subsec, subsec_bytes};

use crate::date_fault::DateFault;

/// The nanoseconds that up to nine digits before a space spell as a fraction of a second, or `None`
/// where there are none. More bytes are ignored.
#[tactic(auto, unfolding(crate::specs::Subsec::parse_subsec))]
pub fn read_subsec(bytes: &[u8]) -> Result<Option<u32>, DateFault>
    ensures { result ≡ parse_subsec bytes.now }
{
    let digits = subsec_bytes(bytes);
    if !are_digits(digits) {
        return Err(DateFault::NotANumber);
    }
    if digits.is_empty() {
        return Ok(None);
    }
    Ok(Some(nanoseconds(digits)))
}

/// The bytes that count: up to nine, before the first space.
fn subsec_bytes(bytes: &[u8]) -> &[u8]
    ensures bytes { result.now ≡ subsec_bytes bytes.now }
    ensures few { length result.now ≤ 9 }
{
    let first = &bytes[..bytes.len().min(9)];
    &first[..length_before_space(first)]
}

fn length_before_space(bytes: &[u8]) -> usize
    ensures len { result ≡ prefix_len (λ b. not (b == 32)) bytes.now }
    ensures within { result ≤ length bytes.now }
{
    bytes.iter().take_while(|byte| **byte != b' ').count()
}

fn are_digits(bytes: &[u8]) -> bool
    ensures { result ≡ list_all is_ascii_digit bytes.now }
{
    bytes.iter().all(|byte| byte.is_ascii_digit())
}

/// The number that the digits spell with zeros behind them up to nine.
fn nanoseconds(digits: &[u8]) -> u32
    requires digits { IsTrue (list_all is_ascii_digit digits.now) }
    requires few { length digits.now ≤ 9 }
    ensures { result ≡ nanoseconds digits.now }
{
    let mut number = 0;
    for digit in digits {
        number = number * 10 + u32::from(digit - b'0');
    }
    number * 10u32.pow(9 - digits.len() as u32)
}
