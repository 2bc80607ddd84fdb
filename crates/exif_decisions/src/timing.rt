//! When a line of progress is written again.

ghost use Rattle.std.specs.Prelude.{◌≡◌};
ghost use Rattle.exif_decisions.specs.Timing.{is_line_due};

// How many milliseconds pass before the line is written again.
const PAUSE: u128 = 100;

/// Whether the line of progress is to be written again, so many milliseconds after it was written
/// last, if it was.
pub fn is_line_due(since: Option<u128>) -> bool
    ensures { result ≡ is_line_due since }
{
    match since {
        Some(since) => PAUSE <= since,
        None => true,
    }
}
