//! Which datasets may occur more than once.

ghost use Rattle.std.specs.Prelude.{◌≡◌};
ghost use Rattle.exif_iptc.specs.Repeats.{in_application, in_envelope, is_repeatable};

// The same of the envelope (IIM, chapter 5).
fn in_envelope(number: u8) -> bool
    ensures { result ≡ in_envelope number }
{
    matches!(number, 5 | 50)
}

// The same of the application record (IIM, chapter 6).
fn in_application(number: u8) -> bool
    ensures { result ≡ in_application number }
{
    matches!(
        number,
        4 | 12 | 20 | 25 | 26 | 27 | 45 | 47 | 50 | 80 | 85 | 118 | 122
    )
}

/// Whether a dataset may occur more than once, by the number of its record and its own: 2:25
/// (`Keywords`) may. Those that the standard does not define may not.
pub fn is_repeatable(record_number: u8, number: u8) -> bool
    ensures { result ≡ is_repeatable record_number number }
{
    match record_number {
        1 => in_envelope(number),
        2 => in_application(number),
        8 => number == 10,
        _ => false,
    }
}
