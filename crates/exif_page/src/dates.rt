//! The day and the time in a date.

ghost use Rattle.std.specs.Prelude.{◌≡◌, option_map};
ghost use Rattle.exif_page.specs.Dates.{day_of, ends_character, fits, fits_byte, is_date, time_of};

// The form of a date, to the second (ISO 8601-1, 5.4.2.1).
const FORM: &[u8] = b"0000-00-00T00:00:00";

// Whether a byte fits a form: a digit where the form has `0`, else the byte of the form.
fn fits_byte(form: u8, byte: u8) -> bool
    ensures { result ≡ fits_byte form byte }
{
    if form == b'0' {
        byte.is_ascii_digit()
    } else {
        form == byte
    }
}

// Whether a character ends before a text.
fn ends_character(text: &[u8]) -> bool
    ensures { result ≡ ends_character text.now }
{
    match text {
        [] => true,
        [byte, ..] => *byte < 128,
    }
}

// Whether a text begins as a form says, and a character ends there.
fn fits(forms: &[u8], text: &[u8]) -> bool
    ensures { result ≡ fits forms.now text.now }
{
    let [form, forms @ ..] = forms else {
        return ends_character(text);
    };
    match text {
        [] => false,
        [byte, text @ ..] => fits_byte(*form, *byte) && fits(forms, text),
    }
}

// Whether a text is a date, to the second at least.
fn is_date(text: &str) -> bool
    ensures { result ≡ is_date text.now }
{
    fits(FORM, text.as_bytes())
}

/// The day of a date such as `2016-05-04T03:02:01.74+09:00`: `2016-05-04`. `None` where the text
/// does not begin as a date.
pub fn day_of(date: &str) -> Option<&str>
    ensures { option_map (λ t. t.now) result ≡ day_of date.now }
{
    if is_date(date) {
        Some(&date[..10])
    } else {
        None
    }
}

/// Its time, to the second: `03:02:01`.
pub fn time_of(date: &str) -> Option<&str>
    ensures { option_map (λ t. t.now) result ≡ time_of date.now }
{
    if is_date(date) {
        Some(&date[11..19])
    } else {
        None
    }
}
