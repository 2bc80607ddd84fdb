//! Offsets from UTC.

ghost use Rattle.std.specs.Prelude.{◌≡◌, ◌<◌, Ok, Err};
ghost use Rattle.exif_text.specs.Dates.{is_blank_offset, parse_offset, signed_minutes};

use crate::date::part;
use crate::date_fault::DateFault;

/// Whether the bytes are 6 spaces, of which the fourth may be a colon.
fn is_blank_offset(bytes: &[u8]) -> bool
    ensures { result ≡ is_blank_offset bytes.now }
{
    bytes == b"      ".as_slice() || bytes == b"   :  ".as_slice()
}

/// The minutes ahead of UTC that `+hh:mm` or `-hh:mm` spells. More bytes are ignored.
#[tactic(auto, unfolding(crate::specs::Dates::parse_offset))]
pub fn read_offset(bytes: &[u8]) -> Result<i16, DateFault>
    ensures { result ≡ parse_offset bytes.now }
{
    if is_blank_offset(bytes) {
        return Err(DateFault::BlankOffset);
    }
    if bytes.len() < 6 {
        return Err(DateFault::OffsetTooShort);
    }
    if bytes[3] != b':' {
        return Err(DateFault::InvalidOffsetDelimiter);
    }
    let hours = part(bytes, 1)?;
    let minutes = part(bytes, 4)?;
    signed_minutes(bytes[0], u16::from(hours) * 60 + u16::from(minutes))
}

fn signed_minutes(sign: u8, minutes: u16) -> Result<i16, DateFault>
    requires { minutes < 6040 }
    ensures { result ≡ signed_minutes sign minutes }
{
    match sign {
        b'+' => Ok(minutes as i16),
        b'-' => Ok(-(minutes as i16)),
        _ => Err(DateFault::InvalidOffsetSign),
    }
}
