//! The unsigned whole numbers of a value.

ghost use Rattle.std.specs.Prelude.{◌≡◌, length, slice_get, codes, Some, IfSome};
ghost use Rattle.std.specs.Iterator.{YieldsFirst, UpTo, at_most, item_count};
ghost use Rattle.std.specs.Iterator.SizeHint.{IsWithinCount};
ghost use Rattle.exif_types.specs.Numbers.{numbers_of, number_in};
ghost use Rattle.exif_types.specs.Refusals.{Answers, unexpected_value, or_refuse};

use crate::{Error, Value};
use exif_text::Numbers;
use std::fmt;
use std::iter::FusedIterator;
use std::marker::Model;

impl Value {
    /// A view of a `Byte`, `Short` or `Long` value, for the tags that allow more than one of these,
    /// as `PixelXDimension`. Any other kind is refused as `UnexpectedValue`. Takes no memory.
    ///
    /// ```
    /// let numbers = field.value.as_uint()?;
    /// Ok(numbers.get(0))
    /// ```
    pub fn as_uint(&self) -> Result<UIntValue<'_>, Error>
        ensures { Answers (λ v. v) result
            (or_refuse (numbers_of self.now) (unexpected_value (codes "Not unsigned integer"))) }
    {
        match self.contents().numbers() {
            Some(numbers) => Ok(UIntValue { numbers }),
            None => Err(Error::UnexpectedValue("Not unsigned integer")),
        }
    }

    /// The number at an index, from 0, of a `Byte`, `Short` or `Long` value; `None` behind the
    /// last, and for any other kind.
    pub fn get_uint(&self, index: usize) -> Option<u32>
        ensures { result ≡ number_in self.now index }
    {
        self.contents().number_at(index)
    }

    /// The numbers of a `Byte`, `Short` or `Long` value in order; `None` for any other kind.
    pub fn iter_uint(&self) -> Option<UIntIter<'_>>
        ensures { result ≡ numbers_of self.now }
    {
        let left = self.contents().numbers()?;
        Some(UIntIter { left })
    }
}

/// A view of a `Byte`, `Short` or `Long` value.
#[derive(Drop)]
pub struct UIntValue<'a> {
    numbers: Numbers<'a>,
}

impl<'a> Model for UIntValue<'a> {
    ghost use Rattle.std.specs.Prelude.{ℕ, List};
    ghost use Rattle.exif_text.specs.Unsigned.{numbers_in};

    ghost Value = { List ℕ };

    ghost view = { λ a. numbers_in a.numbers };
}

impl UIntValue<'_> {
    /// The number at an index.
    pub fn get(&self, index: usize) -> Option<u32>
        ensures { result ≡ slice_get self.now index }
    {
        self.numbers.get(index)
    }
}

impl fmt::Debug for UIntValue<'_> {
    fn fmt<W: fmt::Write>(&self, f: &mut fmt::Formatter<W>) -> fmt::Result {
        match self.numbers {
            Numbers::Byte(items) => write!(f, "UIntValue(Byte({items:?}))"),
            Numbers::Short(items) => write!(f, "UIntValue(Short({items:?}))"),
            Numbers::Long(items) => write!(f, "UIntValue(Long({items:?}))"),
        }
    }
}

/// The numbers of a `Byte`, `Short` or `Long` value. It knows how many are left.
#[derive(Drop)]
pub struct UIntIter<'a> {
    left: Numbers<'a>,
}

impl<'a> Model for UIntIter<'a> {
    ghost use Rattle.std.specs.Prelude.{ℕ, List};
    ghost use Rattle.exif_text.specs.Unsigned.{numbers_in};

    ghost Value = { List ℕ };

    ghost view = { λ a. numbers_in a.left };
}

impl Iterator for UIntIter<'_> {
    type Item = u32;

    ghost next_gives = { YieldsFirst (λ s. s) };

    ghost remaining = { item_count (λ s. s) };

    fn next(&mut self) -> Option<u32> {
        let (first, others) = self.left.split_first()?;
        self.left = others;
        Some(first)
    }

    fn size_hint(&self) -> (usize, Option<usize>)
        ensures lower { IsWithinCount result.0 (at_most (length self.now)) }
        ensures upper { IfSome result.1 (UpTo (at_most (length self.now))) }
        ensures exact { result ≡ (length self.now, Some (length self.now)) }
    {
        let count = self.left.len();
        (count, Some(count))
    }
}

impl ExactSizeIterator for UIntIter<'_> {
    fn len(&self) -> usize {
        self.left.len()
    }
}

impl FusedIterator for UIntIter<'_> {}
