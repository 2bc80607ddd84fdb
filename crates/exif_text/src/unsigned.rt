//! The unsigned whole numbers that a value holds.

ghost use Rattle.std.specs.Prelude.{◌≡◌, length, slice_get};
ghost use Rattle.std.specs.Option.{option_map};
ghost use Rattle.exif_text.specs.Contents.{contents_view};
ghost use Rattle.exif_text.specs.Unsigned.{first_and_rest, number_at, numbers_in, numbers_of, split_first};

use crate::contents::Contents;

/// The list of a value of one of the three kinds of unsigned whole numbers.
#[derive(Clone, Copy)]
pub enum Numbers<'a> {
    /// 8-bit numbers.
    Byte(&'a [u8]),
    /// 16-bit numbers.
    Short(&'a [u16]),
    /// 32-bit numbers.
    Long(&'a [u32]),
}

impl<'a> Contents<'a> {
    /// The numbers of a value, if it is of one of the three kinds.
    pub fn numbers(self) -> Option<Numbers<'a>>
        ensures { option_map numbers_in result ≡ numbers_of (contents_view self.entry) }
    {
        match self {
            Contents::Byte(items) => Some(Numbers::Byte(items)),
            Contents::Short(items) => Some(Numbers::Short(items)),
            Contents::Long(items) => Some(Numbers::Long(items)),
            _ => None,
        }
    }

    /// The number at an index.
    pub fn number_at(self, index: usize) -> Option<u32>
        ensures { result ≡ number_at (contents_view self.entry) index }
    {
        let numbers = self.numbers()?;
        numbers.get(index)
    }
}

impl<'a> Numbers<'a> {
    /// The number at an index.
    pub fn get(self, index: usize) -> Option<u32>
        ensures { result ≡ slice_get (numbers_in self.entry) index }
    {
        match self {
            Numbers::Byte(items) => items.get(index).map(|n| u32::from(*n)),
            Numbers::Short(items) => items.get(index).map(|n| u32::from(*n)),
            Numbers::Long(items) => items.get(index).copied(),
        }
    }

    /// How many numbers there are.
    pub fn len(self) -> usize
        ensures { result ≡ length (numbers_in self.entry) }
    {
        match self {
            Numbers::Byte(items) => items.len(),
            Numbers::Short(items) => items.len(),
            Numbers::Long(items) => items.len(),
        }
    }

    /// The first number and those behind it.
    pub fn split_first(self) -> Option<(u32, Numbers<'a>)>
        ensures { option_map first_and_rest result ≡ split_first (numbers_in self.entry) }
    {
        match self {
            Numbers::Byte(items) => {
                let (first, others) = items.split_first()?;
                Some((u32::from(*first), Numbers::Byte(others)))
            }
            Numbers::Short(items) => {
                let (first, others) = items.split_first()?;
                Some((u32::from(*first), Numbers::Short(others)))
            }
            Numbers::Long(items) => {
                let (first, others) = items.split_first()?;
                Some((*first, Numbers::Long(others)))
            }
        }
    }
}
