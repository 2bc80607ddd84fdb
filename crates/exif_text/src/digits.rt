//! Numbers that ASCII digits spell.

ghost use Rattle.std.specs.Prelude.{◌≡◌, ◌+◌, ◌<◌, ◌≤◌, length, None, Some, if◌then◌else◌};
ghost use Rattle.exif_text.specs.Digits.{are_two_at, digit_in, number_in, two_at};

use crate::date_fault::DateFault;

/// The number that a digit is.
pub(crate) fn ctou32(byte: u8) -> Result<u32, DateFault>
    ensures { result ≡ digit_in byte }
{
    match byte {
        b'0'..=b'9' => Ok(u32::from(byte - b'0')),
        _ => Err(DateFault::NotANumber),
    }
}

/// The number that one to four digits spell.
pub(crate) fn atou16(bytes: &[u8]) -> Result<u16, DateFault>
    requires { length bytes.now ≤ 4 }
    ensures { result ≡ number_in bytes.now }
{
    if bytes.is_empty() {
        return Err(DateFault::NotANumber);
    }
    let mut number = 0;
    for byte in bytes {
        number = number * 10 + ctou32(*byte)?;
    }
    Ok(number as u16)
}

/// The number of the two digits from a position on, or `None` where they are no digits.
pub fn two_digits(bytes: &[u8], from: usize) -> Option<u8>
    requires { from + 1 < length bytes.now }
    ensures { result ≡ (if are_two_at bytes.now from then Some (two_at bytes.now from) else None) }
{
    match atou16(&bytes[from..from + 2]) {
        Ok(number) => Some(number as u8),
        Err(_) => None,
    }
}
