//! Which of its dates gives a picture its new name.

ghost use Rattle.std.specs.Prelude.{◌≡◌};
ghost use Rattle.exif_rename.specs.Dates.{date_by, tag_named};

use crate::order::Moment;

/// A date that a picture may have.
#[derive(Clone, Copy, Debug, PartialEq, Eq)]
pub enum DateTag {
    /// When it was taken: DateTimeOriginal.
    Original,
    /// When it was digitized: DateTimeDigitized.
    Digitized,
    /// When the file was changed last: DateTime.
    Changed,
}

impl DateTag {
    /// The date of a tag's name: DateTimeOriginal, DateTimeDigitized (or CreateDate), DateTime (or
    /// ModifyDate). There is no other.
    pub fn named(name: &str) -> Option<DateTag>
        ensures tag { result ≡ tag_named name.now }
    {
        match name {
            "DateTimeOriginal" => Some(DateTag::Original),
            "DateTimeDigitized" | "CreateDate" => Some(DateTag::Digitized),
            "DateTime" | "ModifyDate" => Some(DateTag::Changed),
            _ => None,
        }
    }
}

/// The dates of a picture that are known, each with its fraction of a second.
#[derive(Clone, Copy, Debug)]
pub struct Dates {
    /// When it was taken.
    pub original: Option<Moment>,
    /// When it was digitized.
    pub digitized: Option<Moment>,
    /// When the file was changed last.
    pub changed: Option<Moment>,
}

impl Dates {
    /// The date that is chosen, if it is known. Where none is chosen, the first that is known: when
    /// the picture was taken, when it was digitized, when the file was changed.
    pub fn chosen(&self, choice: Option<DateTag>) -> Option<Moment>
        ensures moment { result ≡ date_by choice self.now }
    {
        match choice {
            Some(DateTag::Original) => self.original,
            Some(DateTag::Digitized) => self.digitized,
            Some(DateTag::Changed) => self.changed,
            None => self.original.or(self.digitized).or(self.changed),
        }
    }
}
