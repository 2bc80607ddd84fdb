//! Dates and times with separators.

ghost use Rattle.std.specs.Prelude.{◌≡◌, IfOk};
ghost use Rattle.exif_iptc.specs.Forms.{all_digits, is_date, is_time, separated_date, separated_time};

use std::alloc::{AllocError, Global};

// Whether all bytes are digits.
fn all_digits(bytes: &[u8]) -> bool
    ensures { result ≡ all_digits bytes.now }
{
    for i in 0..bytes.len() {
        if bytes[i] < b'0' || b'9' < bytes[i] {
            return false;
        }
    }
    true
}

// Whether bytes have the form CCYYMMDD.
fn is_date(bytes: &[u8]) -> bool
    ensures { result ≡ is_date bytes.now }
{
    bytes.len() == 8 && all_digits(bytes)
}

// Whether bytes have the form HHMMSS±HHMM.
fn is_time(bytes: &[u8]) -> bool
    ensures { result ≡ is_time bytes.now }
{
    bytes.len() == 11
        && all_digits(&bytes[..6])
        && (bytes[6] == b'+' || bytes[6] == b'-')
        && all_digits(&bytes[7..])
}

/// A date `CCYYMMDD` (IIM, 2:55) as `CCYY:MM:DD`; other bytes as they are.
pub(crate) fn separated_date(alloc: Global, bytes: &[u8]) -> Result<Vec<u8>, AllocError>
    ensures { IfOk result (λ v. v.items ≡ separated_date bytes.now) }
{
    if !is_date(bytes) {
        return Vec::from_slice(alloc, bytes);
    }
    let mut out = Vec::new(alloc);
    out.extend_from_slice(&bytes[..4])?;
    out.push(b':')?;
    out.extend_from_slice(&bytes[4..6])?;
    out.push(b':')?;
    out.extend_from_slice(&bytes[6..])?;
    Ok(out)
}

/// A time `HHMMSS±HHMM` (IIM, 2:60) as `HH:MM:SS±HH:MM`; other bytes as they are.
pub(crate) fn separated_time(alloc: Global, bytes: &[u8]) -> Result<Vec<u8>, AllocError>
    ensures { IfOk result (λ v. v.items ≡ separated_time bytes.now) }
{
    if !is_time(bytes) {
        return Vec::from_slice(alloc, bytes);
    }
    let mut out = Vec::new(alloc);
    out.extend_from_slice(&bytes[..2])?;
    out.push(b':')?;
    out.extend_from_slice(&bytes[2..4])?;
    out.push(b':')?;
    out.extend_from_slice(&bytes[4..9])?;
    out.push(b':')?;
    out.extend_from_slice(&bytes[9..])?;
    Ok(out)
}
