//! The fields of an `Exif`, one after another.

ghost use Rattle.std.specs.Prelude.{◌≡◌, length, Some, IfSome};
ghost use Rattle.std.specs.Iterator.{YieldsFirstRef, UpTo, at_most, item_count};
ghost use Rattle.std.specs.Iterator.SizeHint.{IsWithinCount};

use crate::Field;
use std::iter::FusedIterator;
use std::marker::Model;

/// The fields of an `Exif` in the order in which they are. It knows how many are left, and takes no
/// memory.
#[derive(Drop)]
pub struct Fields<'a> {
    left: &'a [Field],
}

impl<'a> Model for Fields<'a> {
    ghost use Rattle.std.specs.Prelude.{List};
    ghost use Rattle.exif_types.specs.declared.field.Field.{Field};

    ghost Value = { List Field };

    ghost view = { λ a. a.left.now };
}

impl<'a> Fields<'a> {
    pub(crate) fn new(left: &'a [Field]) -> Fields<'a>
        ensures { result ≡ left.now }
    {
        Fields { left }
    }
}

/// The fields that are left.
pub fn fields_left<'a>(fields: &Fields<'a>) -> &'a [Field]
    ensures { result.now ≡ fields.now }
{
    fields.left
}

impl<'a> Iterator for Fields<'a> {
    type Item = &'a Field;

    ghost next_gives = { YieldsFirstRef (λ s. s) };

    ghost remaining = { item_count (λ s. s) };

    fn next(&mut self) -> Option<&'a Field> {
        let (first, others) = self.left.split_first()?;
        self.left = others;
        Some(first)
    }

    fn size_hint(&self) -> (usize, Option<usize>)
        ensures lower { IsWithinCount result.0 (at_most (length self.now)) }
        ensures upper { IfSome result.1 (UpTo (at_most (length self.now))) }
        ensures exact { result ≡ (length self.now, Some (length self.now)) }
    {
        let count = self.left.len();
        (count, Some(count))
    }
}

impl ExactSizeIterator for Fields<'_> {
    fn len(&self) -> usize {
        self.left.len()
    }
}

impl FusedIterator for Fields<'_> {}
