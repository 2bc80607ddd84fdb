//! Characters, in UTF-8.

ghost use Rattle.std.specs.Prelude.{◌≡◌};
ghost use Rattle.exif_xml.specs.Characters.{after, after_first, begun_at, invalid_character, unfinished, within};

// What the next byte of a document may be.
#[derive(Clone, Copy)]
enum Expected {
    // The first byte of a character.
    First,
    // The last byte of a character: 80 to BF, in hexadecimal.
    Last,
    // That byte, and then the last one.
    Last2,
    // That byte, and then the last two.
    Last3,
    // The second byte behind E0: A0 to BF, since shorter forms are not allowed.
    AfterE0,
    // The second byte behind ED: 80 to 9F, since surrogates are no characters.
    AfterEd,
    // The second byte behind EF: 80 to BF.
    AfterEf,
    // The third byte behind EF BF: 80 to BD, since U+FFFE and U+FFFF are no characters of XML.
    AfterEfBf,
    // The second byte behind F0: 90 to BF, since shorter forms are not allowed.
    AfterF0,
    // The second byte behind F4: 80 to 8F, since U+10FFFF is the last character.
    AfterF4,
}

// What follows a byte that is in a range.
fn within(b: u8, first: u8, last: u8, next: Expected) -> Option<Expected>
    ensures { result ≡ within b first last next }
{
    if first <= b && b <= last {
        return Some(next);
    }
    None
}

// What follows the first byte of a character.
fn after_first(b: u8) -> Option<Expected>
    ensures { result ≡ after_first b }
{
    if b == 9 || b == 10 || b == 13 || (32 <= b && b <= 127) {
        return Some(Expected::First);
    }
    if b == 224 {
        return Some(Expected::AfterE0);
    }
    if b == 237 {
        return Some(Expected::AfterEd);
    }
    if b == 239 {
        return Some(Expected::AfterEf);
    }
    if b == 240 {
        return Some(Expected::AfterF0);
    }
    if b == 244 {
        return Some(Expected::AfterF4);
    }
    if 194 <= b && b <= 223 {
        return Some(Expected::Last);
    }
    if 225 <= b && b <= 238 {
        return Some(Expected::Last2);
    }
    within(b, 241, 243, Expected::Last3)
}

// What follows a byte, unless it is not allowed.
fn after(expected: Expected, b: u8) -> Option<Expected>
    ensures { result ≡ after expected b }
{
    match expected {
        Expected::First => after_first(b),
        Expected::Last => within(b, 128, 191, Expected::First),
        Expected::Last2 => within(b, 128, 191, Expected::Last),
        Expected::Last3 => within(b, 128, 191, Expected::Last2),
        Expected::AfterE0 => within(b, 160, 191, Expected::Last),
        Expected::AfterEd => within(b, 128, 159, Expected::Last),
        Expected::AfterEf => {
            if b == 191 {
                return Some(Expected::AfterEfBf);
            }
            within(b, 128, 190, Expected::Last)
        }
        Expected::AfterEfBf => within(b, 128, 189, Expected::First),
        Expected::AfterF0 => within(b, 144, 191, Expected::Last2),
        Expected::AfterF4 => within(b, 128, 143, Expected::Last2),
    }
}

// The offset where a character begins, of which a byte at an offset may be the first.
fn begun_at(expected: Expected, begun: usize, offset: usize) -> usize
    ensures { result ≡ begun_at expected begun offset }
{
    match expected {
        Expected::First => offset,
        _ => begun,
    }
}

// The offset of a character that the end of the document cuts off.
fn unfinished(expected: Expected, begun: usize) -> Option<usize>
    ensures { result ≡ unfinished expected begun }
{
    match expected {
        Expected::First => None,
        _ => Some(begun),
    }
}

/// The offset of the first bytes that are no character of XML 1.0 (section 2.2) in UTF-8 (RFC 3629,
/// 3 and 4); `None` where all of them are.
///
/// Not allowed are control characters but tab, LF and CR, the surrogates, U+FFFE and U+FFFF, and
/// bytes that are not UTF-8. The functions of this crate read documents with such bytes, too: this
/// is a test beside them. It needs no memory.
pub fn invalid_character(document: &[u8]) -> Option<usize>
    ensures { result ≡ invalid_character document.now }
{
    let mut expected = Expected::First;
    let mut begun = 0;
    for i in 0..document.len() {
        begun = begun_at(expected, begun, i);
        match after(expected, document[i]) {
            Some(next) => expected = next,
            None => return Some(begun),
        }
    }
    unfinished(expected, begun)
}
