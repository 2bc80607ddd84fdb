//! When a picture was taken, as file systems count time.

ghost use Rattle.std.specs.Prelude.{◌≡◌};
ghost use Rattle.exif_summary.specs.Choices.{fields_in};
ghost use Rattle.exif_geotag.specs.UnixTimes.{since_1970, unix_time_in};

use crate::pictures::time_of_picture;
use exif_types::Exif;

// The milliseconds from the start of the year 0, from which pictures count, to 1970, from which file
// systems do.
const TO_1970: u64 = 719_528 * 86_400_000;

// The milliseconds from 1970 to a time.
fn since_1970(time: u64) -> Option<u64>
    ensures { result ≡ since_1970 time }
{
    if TO_1970 <= time {
        Some(time - TO_1970)
    } else {
        None
    }
}

/// When a picture was taken, in milliseconds of UTC from the start of 1970, with `zone` as
/// [`time_of_picture`] takes it. `None` where that has no answer, where the picture has no Exif
/// data, and before 1970. It takes no memory.
pub fn unix_time_of_picture(exif: Option<&Exif>, zone: &[u8]) -> Option<u64>
    ensures { result ≡ unix_time_in (fields_in exif.entry) zone.now }
{
    since_1970(time_of_picture(exif?, zone)?)
}
