//! How far two points of a track may be apart.

ghost use Rattle.std.specs.Prelude.{◌≡◌};
ghost use Rattle.exif_files.specs.Names.{name_if};
ghost use Rattle.exif_geotag.specs.Gaps.{gap_by, gap_in};

use crate::number::decimal_of;

/// Five minutes, in milliseconds.
pub const DEFAULT_GAP: u64 = 300_000;

// Ten days, in milliseconds.
const MAX_GAP: u64 = 864_000_000;

/// The milliseconds of the seconds that a text spells, as `300` or `0.5`; `None` where it spells
/// none, or more than 864000, which are ten days. Further digits of a fraction are cut off. It
/// takes no memory.
#[tactic(auto, unfolding(crate::specs::Gaps::gap_in))]
pub fn gap_in(text: &[u8]) -> Option<u64>
    ensures { result ≡ gap_in text.now }
{
    let gap = decimal_of(1_000, text)?;
    if gap <= MAX_GAP { Some(gap) } else { None }
}

/// How far two points may be apart by the text of an option, in milliseconds: where none is given,
/// [`DEFAULT_GAP`].
pub fn gap_by(text: Option<&str>) -> Option<u64>
    ensures { result ≡ gap_by (name_if text.entry) }
{
    match text {
        Some(text) => gap_in(text.as_bytes()),
        None => Some(DEFAULT_GAP),
    }
}
