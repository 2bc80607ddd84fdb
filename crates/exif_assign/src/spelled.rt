//! Items that words spell.

ghost use Rattle.std.specs.Prelude.{◌≡◌, ◌<◌, ◌≤◌, ◌^◌, ◌≢◌, pos, neg_ℤ, ◌≤ℤ◌, length, IfSome};
ghost use Rattle.exif_assign.specs.declared.spelled.ValueError.TheVariants.{OutOfMemory};
ghost use Rattle.exif_assign.specs.Texts.{Spells, decimal_in, decimal_of, fraction_of, is_separator, items_behind, items_in, point_fraction, rational_in, signed_below, signed_fraction, small_fraction, srational_in, with_word};

use exif_base::Items;
use exif_datetime::{cut, number_below};
use exif_text::{Rational, SRational};
use std::alloc::{AllocError, AllocFailed, Global};

/// Why a text is no value.
#[derive(Clone, Copy, Debug, PartialEq, Eq)]
pub enum ValueError {
    /// The text spells no value of the type.
    NotOfItsType,
    /// The standard does not have this value for the tag.
    OutOfRange,
    /// There was no memory.
    OutOfMemory,
}

impl From<AllocError> for ValueError {
    ghost from_gives = { λ _ e. e ≡ OutOfMemory };

    fn from(_e: AllocError) -> ValueError {
        ValueError::OutOfMemory
    }
}

impl<T: Drop> From<AllocFailed<T>> for ValueError {
    ghost from_gives = { λ _ e. e ≡ OutOfMemory };

    fn from(_e: AllocFailed<T>) -> ValueError {
        ValueError::OutOfMemory
    }
}

/// An item that a word spells.
pub(crate) trait Spelled: Drop {
    ghost use Rattle.std.specs.Prelude.{ℕ, List, Option};

    /// The item of a word.
    ghost spelled: { List ℕ → Option Self };

    /// Reads it.
    fn spelled(word: &[u8]) -> Option<Self>
    where
        Self: Sized,
        ensures { result ≡ spelled word.now };
}

impl Spelled for u8 {
    ghost use Rattle.exif_assign.specs.Texts.{u8_in};

    ghost spelled = { u8_in };

    fn spelled(word: &[u8]) -> Option<u8> {
        let number = number_below(256, word)?;
        Some(number as u8)
    }
}

impl Spelled for u16 {
    ghost use Rattle.exif_assign.specs.Texts.{u16_in};

    ghost spelled = { u16_in };

    fn spelled(word: &[u8]) -> Option<u16> {
        let number = number_below(65_536, word)?;
        Some(number as u16)
    }
}

impl Spelled for u32 {
    ghost use Rattle.exif_assign.specs.Texts.{u32_in};

    ghost spelled = { u32_in };

    fn spelled(word: &[u8]) -> Option<u32> {
        let number = number_below(4_294_967_296, word)?;
        Some(number as u32)
    }
}

// A signed number of which the positive ones are below a limit.
fn signed_below(limit: u64, word: &[u8]) -> Option<i64>
    requires some { 0 < limit }
    requires small { limit < 2 ^ 32 }
    ensures answer { result ≡ signed_below limit word.now }
    ensures low { IfSome result (λ n. neg_ℤ (pos limit) ≤ℤ n) }
    ensures high { IfSome result (λ n. n ≤ℤ pos limit) }
    ensures below { IfSome result (λ n. n ≢ pos limit) }
{
    if word.is_empty() {
        return None;
    }
    if word[0] == b'-' {
        let number = number_below(limit + 1, &word[1..])?;
        Some(-(number as i64))
    } else {
        let number = number_below(limit, word)?;
        Some(number as i64)
    }
}

impl Spelled for i8 {
    ghost use Rattle.exif_assign.specs.Texts.{i8_in};

    ghost spelled = { i8_in };

    fn spelled(word: &[u8]) -> Option<i8> {
        let number = signed_below(128, word)?;
        Some(number as i8)
    }
}

impl Spelled for i16 {
    ghost use Rattle.exif_assign.specs.Texts.{i16_in};

    ghost spelled = { i16_in };

    fn spelled(word: &[u8]) -> Option<i16> {
        let number = signed_below(32_768, word)?;
        Some(number as i16)
    }
}

impl Spelled for i32 {
    ghost use Rattle.exif_assign.specs.Texts.{i32_in};

    ghost spelled = { i32_in };

    fn spelled(word: &[u8]) -> Option<i32> {
        let number = signed_below(2_147_483_648, word)?;
        Some(number as i32)
    }
}

// Ten to the power of a number of digits.
#[tactic(auto, using(crate::proofs::Powers::powers, crate::proofs::Powers::powers_small, crate::proofs::Powers::powers_of_seven))]
pub(crate) fn power_of_ten(digits: usize) -> u64
    requires { digits < 10 }
    ensures power { result ≡ 10 ^ digits }
    ensures some { 0 < result }
    ensures small { result ≤ 1000000000 }
    ensures smaller { digits ≤ 7 → result ≤ 10000000 }
{
    [
        1,
        10,
        100,
        1_000,
        10_000,
        100_000,
        1_000_000,
        10_000_000,
        100_000_000,
        1_000_000_000,
    ][digits]
}

// A fraction, if its upper number has 32 bits.
fn small_fraction(num: u64, denom: u64) -> Option<Rational>
    requires { denom < 2 ^ 32 }
    ensures { result ≡ small_fraction num denom }
{
    if num < 4_294_967_296 {
        Some(Rational {
            num: num as u32,
            denom: denom as u32,
        })
    } else {
        None
    }
}

// The fraction of a whole number and of the number that the digits behind its point spell.
fn point_fraction(whole: u32, digits: &[u8]) -> Option<Rational>
    requires { length digits.now < 10 }
    ensures { result ≡ point_fraction whole digits.now }
{
    let denom = power_of_ten(digits.len());
    let part = number_below(denom, digits)?;
    small_fraction(u64::from(whole) * denom + part, denom)
}

// A decimal of one to nine digits behind its point.
fn decimal_of(whole: &[u8], digits: &[u8]) -> Option<Rational>
    ensures { result ≡ decimal_of (whole.now, digits.now) }
{
    if digits.len() > 9 {
        return None;
    }
    let whole = u32::spelled(whole)?;
    point_fraction(whole, digits)
}

// A whole number, or such a decimal.
fn decimal_in(word: &[u8]) -> Option<Rational>
    ensures { result ≡ decimal_in word.now }
{
    match cut(b'.', word) {
        Some((whole, digits)) => decimal_of(whole, digits),
        None => {
            let num = u32::spelled(word)?;
            Some(Rational { num, denom: 1 })
        }
    }
}

// Two numbers around a slash.
fn fraction_of(upper: &[u8], lower: &[u8]) -> Option<Rational>
    ensures { result ≡ fraction_of (upper.now, lower.now) }
{
    let num = u32::spelled(upper)?;
    let denom = u32::spelled(lower)?;
    Some(Rational { num, denom })
}

impl Spelled for Rational {
    ghost use Rattle.exif_assign.specs.Texts.{rational_in};

    ghost spelled = { rational_in };

    fn spelled(word: &[u8]) -> Option<Rational> {
        match cut(b'/', word) {
            Some((upper, lower)) => fraction_of(upper, lower),
            None => decimal_in(word),
        }
    }
}

// The fraction with a sign, if 31 bits hold its numbers.
fn signed_fraction(is_negative: bool, of: Rational) -> Option<SRational>
    ensures { result ≡ signed_fraction is_negative of }
{
    if of.num < 2_147_483_648 && of.denom < 2_147_483_648 {
        let num = of.num as i32;
        Some(SRational {
            num: if is_negative { -num } else { num },
            denom: of.denom as i32,
        })
    } else {
        None
    }
}

impl Spelled for SRational {
    ghost use Rattle.exif_assign.specs.Texts.{srational_in};

    ghost spelled = { srational_in };

    fn spelled(word: &[u8]) -> Option<SRational> {
        if word.is_empty() {
            return None;
        }
        if word[0] == b'-' {
            let of = Rational::spelled(&word[1..])?;
            signed_fraction(true, of)
        } else {
            let of = Rational::spelled(word)?;
            signed_fraction(false, of)
        }
    }
}

// Whether a byte separates items.
fn is_separator(byte: u8) -> bool
    ensures { result ≡ is_separator byte }
{
    byte == b',' || byte == b' '
}

// Adds the item of a word, if there is a word.
fn add_word<T: Spelled>(items: &mut Vec<T>, word: &[u8]) -> Result<(), ValueError>
    ensures { Spells (λ done. items.new.items) result
        (with_word T.spelled items.old.items word.now) }
{
    if word.is_empty() {
        return Ok(());
    }
    let Some(item) = T::spelled(word) else {
        return Err(ValueError::NotOfItsType);
    };
    items.push(item)?;
    Ok(())
}

/// The items that the words between commas and spaces spell, of which there is at least one.
pub(crate) fn items_in<T: Spelled>(alloc: Global, text: &[u8]) -> Result<Items<T>, ValueError>
    ensures { Spells (λ items. items) result (items_in T.spelled text.now) }
{
    let mut items = Vec::new(alloc);
    let mut word = Vec::new(alloc);
    for byte in text {
        if is_separator(*byte) {
            add_word(&mut items, word.as_slice())?;
            word = Vec::new(alloc);
        } else {
            word.push(*byte)?;
        }
    }
    add_word(&mut items, word.as_slice())?;
    if items.is_empty() {
        return Err(ValueError::NotOfItsType);
    }
    Ok(Items::from_vec(items))
}
