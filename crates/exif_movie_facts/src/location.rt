//! Locations as texts (ISO 6709:2008, Annex H), and in the box `loci` (3GPP TS 26.244, clause 8).

ghost use Rattle.std.specs.Prelude.{◌≡◌, ◌≤◌, ◌<◌, ◌+◌, ◌^◌, length, IfSome};
ghost use Rattle.exif_movie_facts.specs.Locations.{after_name, altitude, angle, checked, fixed, iso6709_location, largest, loci_location, metres_of, minutes, name_len, seconds, units, value_of, with_latitude};

use crate::digits::{Count, appended};
use crate::number::u32_of;
use crate::token::{Token, fraction_of, token_of, whole_of};

/// A number as a fraction. It is not reduced.
#[derive(Clone, Copy, Debug, PartialEq, Eq)]
pub struct Fraction {
    /// Whether the number has a minus.
    pub negative: bool,
    /// The numerator, without the sign.
    pub numerator: u64,
    /// The denominator, at least 1.
    pub denominator: u64,
}

/// A location, exactly as the file states it.
#[derive(Clone, Copy, Debug, PartialEq, Eq)]
pub struct Location {
    /// The latitude in degrees, north of the equator.
    pub latitude: Fraction,
    /// The longitude in degrees, east of the prime meridian.
    pub longitude: Fraction,
    /// The altitude in metres, if it is stated.
    pub altitude: Option<Fraction>,
}

// The digits of degrees and minutes, in minutes.
fn minutes(n: u64) -> Option<Count>
    requires { n < 10 ^ 8 }
    ensures value { result ≡ minutes n }
    ensures most { IfSome result (λ count. count.value ≤ 10 ^ 17) }
    ensures fine { IfSome result (λ count. count.scale ≤ 10 ^ 17) }
{
    if n % 100 > 59 {
        return None;
    }
    Some(Count {
        value: n / 100 * 60 + n % 100,
        scale: 60,
    })
}

// The digits of degrees, minutes and seconds, in seconds.
fn seconds(n: u64) -> Option<Count>
    requires { n < 10 ^ 8 }
    ensures value { result ≡ seconds n }
    ensures most { IfSome result (λ count. count.value ≤ 10 ^ 17) }
    ensures fine { IfSome result (λ count. count.scale ≤ 10 ^ 17) }
{
    if n % 100 > 59 || n / 100 % 100 > 59 {
        return None;
    }
    Some(Count {
        value: n / 10_000 * 3_600 + n / 100 % 100 * 60 + n % 100,
        scale: 3_600,
    })
}

// The angle of the digits before the point: degrees if there are `width` of them, degrees and
// minutes with two more, degrees, minutes and seconds with four more.
fn units(width: usize, digits: usize, n: u64) -> Option<Count>
    requires { width ≤ 3 }
    ensures value { result ≡ units width digits n }
    ensures most { IfSome result (λ count. count.value ≤ 10 ^ 17) }
    ensures fine { IfSome result (λ count. count.scale ≤ 10 ^ 17) }
{
    if n >= 100_000_000 {
        return None;
    }
    if digits == width {
        return Some(Count { value: n, scale: 1 });
    }
    if digits == width + 2 {
        return minutes(n);
    }
    if digits == width + 4 {
        return seconds(n);
    }
    None
}

// The number of the digits before the point, if there are not too many.
fn value_of(digits: &[u8]) -> Option<u64>
    ensures value { result ≡ value_of digits.now }
    ensures most { IfSome result (λ n. n ≤ 10 ^ 17) }
{
    match appended(Count { value: 0, scale: 1 }, digits) {
        Some(count) => Some(count.value),
        None => None,
    }
}

// The largest angle in units of which `scale` are a degree: 90 degrees for a latitude, which has
// two digits of degrees, and 180 for a longitude.
fn largest(width: usize, scale: u64) -> u64
    requires { scale ≤ 10 ^ 17 }
    ensures { result ≡ largest width scale }
{
    if width == 2 { 90 * scale } else { 180 * scale }
}

// An angle, if it is in range.
fn checked(width: usize, negative: bool, count: Count) -> Option<Fraction>
    requires { count.scale ≤ 10 ^ 17 }
    ensures { result ≡ checked width negative count }
{
    if count.value > largest(width, count.scale) {
        return None;
    }
    Some(Fraction {
        negative,
        numerator: count.value,
        denominator: count.scale,
    })
}

// The angle of a number in a text.
fn angle(width: usize, token: Token, bytes: &[u8]) -> Option<Fraction>
    requires width { width ≤ 3 }
    requires whole { 1 + token.whole_len ≤ token.fraction_start }
    requires order { token.fraction_start ≤ token.end }
    requires within { token.end ≤ length bytes.now }
    ensures { result ≡ angle width token bytes.now }
{
    let whole = value_of(whole_of(token, bytes))?;
    let start = units(width, token.whole_len, whole)?;
    let count = appended(start, fraction_of(token, bytes))?;
    checked(width, token.negative, count)
}

// The altitude of a number in a text.
fn metres_of(token: Token, bytes: &[u8]) -> Option<Fraction>
    requires whole { 1 + token.whole_len ≤ token.fraction_start }
    requires order { token.fraction_start ≤ token.end }
    requires within { token.end ≤ length bytes.now }
    ensures { result ≡ metres_of token bytes.now }
{
    let whole = value_of(whole_of(token, bytes))?;
    let count = appended(
        Count {
            value: whole,
            scale: 1,
        },
        fraction_of(token, bytes),
    )?;
    Some(Fraction {
        negative: token.negative,
        numerator: count.value,
        denominator: count.scale,
    })
}

// The altitude that a text begins with, if it begins with one.
fn altitude(bytes: &[u8]) -> Option<Fraction>
    ensures { result ≡ altitude bytes.now }
{
    let found = token_of(bytes)?;
    metres_of(found, bytes)
}

// A location with this latitude and the longitude that a text begins with.
fn with_latitude(latitude: Fraction, bytes: &[u8]) -> Option<Location>
    ensures { result ≡ with_latitude latitude bytes.now }
{
    let found = token_of(bytes)?;
    let longitude = angle(3, found, bytes)?;
    Some(Location {
        latitude,
        longitude,
        altitude: altitude(&bytes[found.end..]),
    })
}

/// The location that a text states (ISO 6709:2008, Annex H), as in `©xyz` of user data and in the
/// metadata key `com.apple.quicktime.location.ISO6709`.
///
/// Latitude, longitude and altitude follow each other, each with its sign. A latitude has two
/// digits of degrees and a longitude three; two digits more are minutes, and two more seconds. Any
/// of them may have a decimal point and digits after it. What follows, as a reference system and the final
/// `/`, is not read.
///
/// `None` for other texts, for an angle out of range (latitude over 90 degrees, longitude over 180,
/// minutes or seconds over 59), and for a number of more than about 15 digits. An altitude that is
/// no such number is `None` alone.
pub fn iso6709_location(bytes: &[u8]) -> Option<Location>
    ensures location { result ≡ iso6709_location bytes.now }
{
    let found = token_of(bytes)?;
    let latitude = angle(2, found, bytes)?;
    with_latitude(latitude, &bytes[found.end..])
}

// A fixed-point number in four bytes, of which two are after the point, in two's complement.
fn fixed(bytes: &[u8]) -> Fraction
    requires { 4 ≤ length bytes.now }
    ensures { result ≡ fixed bytes.now }
{
    let n = u64::from(u32_of(bytes));
    if n >= 0x8000_0000 {
        Fraction {
            negative: true,
            numerator: 0x1_0000_0000u64.saturating_sub(n),
            denominator: 0x1_0000,
        }
    } else {
        Fraction {
            negative: false,
            numerator: n,
            denominator: 0x1_0000,
        }
    }
}

// How many bytes there are before the first zero.
fn name_len(bytes: &[u8]) -> usize
    ensures value { result ≡ name_len bytes.now }
    ensures most { result ≤ length bytes.now }
{
    let mut n = 0;
    for b in bytes {
        if *b == 0 {
            return n;
        }
        n += 1;
    }
    n
}

// The location after a name: a zero and a role precede it.
#[tactic(auto, unfolding(crate::specs::Locations::after_name))]
fn after_name(bytes: &[u8]) -> Option<Location>
    ensures { result ≡ after_name bytes.now }
{
    if bytes.len() < 14 {
        return None;
    }
    Some(Location {
        latitude: fixed(&bytes[6..]),
        longitude: fixed(&bytes[2..]),
        altitude: Some(fixed(&bytes[10..])),
    })
}

/// The location in the content of the box `loci` (3GPP TS 26.244, clause 8), as it is stored:
/// angles out of range are answered too.
///
/// Each number is in units of 1/65,536. The astronomical body, which is Earth in what cameras
/// write, is not read. `None` if the box ends before the altitude does, or its name is in UTF-16.
pub fn loci_location(content: &[u8]) -> Option<Location>
    ensures location { result ≡ loci_location content.now }
{
    if content.len() < 7 || content[6] == 0xfe {
        return None;
    }
    let name = &content[6..];
    after_name(&name[name_len(name)..])
}
