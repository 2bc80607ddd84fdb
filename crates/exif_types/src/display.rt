//! The texts of values by their tags.

ghost use Rattle.std.specs.Prelude.{◌≡◌, Some};
ghost use Rattle.exif_types.specs.ValueTexts.{text_of};

use crate::unit::{DisplayValueUnit, ProvideUnit};
use crate::{Field, Tag, Value};
use exif_table::TextKind;
use exif_table::display::write_value;
use exif_text::Contents;
use std::fmt;
use std::marker::Model;

/// A value that is shown as a tag says. It takes no notice of a width.
#[derive(Clone, Copy)]
pub struct Display<'a> {
    kind: TextKind,
    contents: Contents<'a>,
}

impl fmt::Display for Display<'_> {
    ghost use Rattle.exif_types.specs.ValueTexts.{shown_text};

    ghost output = { λ d. Some (shown_text d) };

    #[tactic(auto, unfolding(crate::specs::ValueTexts::shown_text))]
    fn fmt<W: fmt::Write>(&self, f: &mut fmt::Formatter<W>) -> fmt::Result {
        write_value(f, self.kind, self.contents)
    }
}

impl Value {
    ghost use Rattle.exif_table.specs.Kinds.{value_text};
    ghost use Rattle.exif_types.specs.PlainValues.{plain_of};
    ghost use Rattle.exif_types.specs.ValueTexts.{shown_text};

    /// The value as a tag shows it. It takes no memory.
    ///
    /// ```
    /// text = format!(in alloc; "{}", value.display_as(tag))?;
    /// ```
    #[tactic(auto, unfolding(crate::specs::ValueTexts::text_of))]
    pub fn display_as(&self, tag: Tag) -> Display<'_>
        ensures { shown_text result ≡ text_of tag self.now }
    {
        self.display_by(tag.text_kind())
    }

    // The value as this kind shows it.
    #[tactic(auto, unfolding(crate::specs::ValueTexts::shown_text))]
    pub(crate) fn display_by(&self, kind: TextKind) -> Display<'_>
        ensures { shown_text result ≡ value_text kind (plain_of self.now) }
    {
        Display {
            kind,
            contents: self.contents(),
        }
    }
}

/// The value of a field, shown as its tag says and without its unit.
#[derive(Drop)]
pub struct DisplayValue<'a> {
    field: &'a Field,
}

impl<'a> Model for DisplayValue<'a> {
    ghost use Rattle.exif_types.specs.declared.field.Field.{Field};

    ghost Value = { Field };

    ghost view = { λ d. d.field.now };
}

impl fmt::Display for DisplayValue<'_> {
    ghost output = { λ field. Some (text_of field.tag field.value) };

    fn fmt<W: fmt::Write>(&self, f: &mut fmt::Formatter<W>) -> fmt::Result {
        let field = self.field;
        write!(f, "{}", field.value.display_as(field.tag))
    }
}

impl Field {
    /// The field's value as its tag shows it. It takes no memory.
    pub fn display_value(&self) -> DisplayValue<'_>
        ensures { result ≡ self.now }
    {
        DisplayValue { field: self }
    }
}

impl<'a> DisplayValue<'a> {
    /// The value with its unit. Where the unit names other tags, their fields are looked up in
    /// `unit`, in the directory of this field: an `Exif`, a field, or `()` for none. It takes no
    /// memory.
    ///
    /// ```
    /// let value = field.display_value().with_unit(exif);
    /// ```
    pub fn with_unit<T: ProvideUnit<'a>>(&self, unit: T) -> DisplayValueUnit<'a, T>
        ensures { result ≡ record { field = self.now; unit = unit } }
    {
        DisplayValueUnit::new(self.field, unit)
    }
}
