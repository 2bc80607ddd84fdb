//! Raw profiles: metadata as hexadecimal digits in a text, as ImageMagick and exiftool write them
//! into PNG files.

ghost use Rattle.std.specs.Prelude.{◌≡◌, false, true, None, Some, IfOk, OnOk};
ghost use Rattle.std.specs.Option.{option_map};
ghost use Rattle.exif_packets.specs.RawProfiles.{behind_line, byte_of, digit_of, digits_view, no_digits, profile_of, with_character, with_characters, with_digit};

use std::alloc::{AllocError, Global};

// What was read of the digits.
#[derive(Drop)]
struct Digits {
    // The first digit of a byte that is not complete.
    waiting: Option<u8>,
    // The bytes.
    bytes: Vec<u8>,
}

// What follows the first line.
fn behind_line(text: &[u8]) -> &[u8]
    ensures { result.now ≡ behind_line text.now }
{
    let mut rest = text;
    while let Some((first, others)) = rest.split_first() {
        if *first == b'\n' {
            return others;
        }
        rest = others;
    }
    rest
}

// The number that a hexadecimal digit is.
fn digit_of(character: u8) -> Option<u8>
    ensures { result ≡ digit_of character }
{
    match character {
        b'0'..=b'9' => Some(character - b'0'),
        b'a'..=b'f' => Some(character - b'a' + 10),
        b'A'..=b'F' => Some(character - b'A' + 10),
        _ => None,
    }
}

// The byte that two digits are.
fn byte_of(high: u8, low: u8) -> u8
    ensures { result ≡ byte_of high low }
{
    ((16 * u16::from(high) + u16::from(low)) % 256) as u8
}

// Adds a digit.
fn add_digit(digits: &mut Digits, digit: u8) -> Result<(), AllocError>
    ensures { OnOk result (digits_view digits.new ≡ with_digit digit (digits_view digits.old)) }
{
    match digits.waiting {
        Some(high) => {
            digits.bytes.push(byte_of(high, digit))?;
            digits.waiting = None;
        }
        None => digits.waiting = Some(digit),
    }
    Ok(())
}

// Adds a character, and answers whether it is a digit, or the end of a line or a blank, which add
// nothing.
fn add_character(digits: &mut Digits, character: u8) -> Result<bool, AllocError>
    ensures next { IfOk result (λ next. next ≡ true
        → with_character character (digits_view digits.old) ≡ Some (digits_view digits.new)) }
    ensures other { IfOk result (λ next. next ≡ false
        → with_character character (digits_view digits.old) ≡ None) }
{
    if character == b'\n' || character == b' ' {
        return Ok(true);
    }
    match digit_of(character) {
        Some(digit) => {
            add_digit(digits, digit)?;
            Ok(true)
        }
        None => Ok(false),
    }
}

// The digits of a text, if it has nothing else.
fn read_digits(alloc: Global, text: &[u8]) -> Result<Option<Digits>, AllocError>
    ensures { IfOk result (λ found. option_map digits_view found
        ≡ with_characters text.now no_digits) }
{
    let mut digits = Digits {
        waiting: None,
        bytes: Vec::new(alloc),
    };
    for character in text {
        if !add_character(&mut digits, *character)? {
            return Ok(None);
        }
    }
    Ok(Some(digits))
}

/// The bytes of a raw profile: a text of an empty line, a line with its name, a line with its
/// length, and hexadecimal digits in lines. `None` where there is anything else behind the third
/// line, or half a byte.
///
/// The length is not looked at: it follows from the digits. It takes the memory of the bytes.
pub fn profile_of(alloc: Global, text: &[u8]) -> Result<Option<Vec<u8>>, AllocError>
    ensures { IfOk result (λ found. option_map (λ v. v.items) found ≡ profile_of text.now) }
{
    let digits = behind_line(behind_line(behind_line(text)));
    match read_digits(alloc, digits)? {
        Some(
            Digits {
                waiting: None,
                bytes,
            },
        ) => Ok(Some(bytes)),
        _ => Ok(None),
    }
}
