//! Tags: a number, and the kind of directory that it is in (Exif 2.32, 4.6.3).

ghost use Rattle.std.specs.Prelude.{◌≡◌, Some, IfOk, IfErr, map, unwrap_or};
ghost use Rattle.std.specs.Option.{option_map};
ghost use Rattle.std.specs.Fmt.{spec_align, spec_width};
ghost use Rattle.std.specs.declared.fmt.Alignment.TheVariants.{Left};
ghost use Rattle.exif_table.specs.View.{piece_view, row_view};
ghost use Rattle.exif_text.specs.Pad.{pad};

mod constants;

use crate::{Error, Value};
use arrayvec::ArrayString;
use exif_table::{Context, Row, TextKind, UnitPiece, find_row};
use exif_text::pad::write_padded;
use itoa::Buffer;
use std::alloc::Global;
use std::fmt;

/// A tag: the context and the number (TIFF 6.0, section 2; Exif 2.32, 4.6). It is shown by its
/// name, or as `Tag(Exif, 0)` where the standard names none. Its constants have the standard's
/// names.
///
/// One number stands for different tags in different contexts, so a tag is both. What is asked of
/// one takes no memory, but for `default_value`.
#[derive(Clone, Copy, Debug, PartialEq, Eq, PartialOrd, Ord, Hash)]
pub struct Tag(pub Context, pub u16);

impl Tag {
    ghost use Rattle.exif_types.specs.TagRows.{description_of, kind_of, row_of_tag, unit_of};
    ghost use Rattle.exif_types.specs.Defaults.{default_of};
    ghost use Rattle.exif_types.specs.TagTexts.{numbered_text};

    /// The kind of directory that the tag belongs to, which is its first part.
    pub fn context(self) -> Context
        ensures { result ≡ self.0 }
    {
        self.0
    }

    /// The number of the tag, which is its second part, as it is in an entry.
    pub fn number(self) -> u16
        ensures { result ≡ self.1 }
    {
        self.1
    }

    /// What the tag stands for, in a few words of the standard's tables (Exif 2.32, 4.6.8); `None`
    /// for a tag that it doesn't name.
    pub fn description(&self) -> Option<&'static str>
        ensures { option_map (λ text. text.now) result ≡ description_of self.now }
    {
        match self.row() {
            Some(row) => Some(row.description),
            None => None,
        }
    }

    /// What stands for the value where the tag is absent (the standard's "Default"): `None` where
    /// it gives nothing, leaves it open or lets the rest of the data decide. It takes memory for
    /// the value, and the only error is `OutOfMemory`.
    ///
    /// ```
    /// let default = tag.default_value(alloc)?;
    /// ```
    pub fn default_value(&self, alloc: Global) -> Result<Option<Value>, Error>
        ensures value { IfOk result (λ value. value ≡ default_of self.now) }
        ensures memory { IfErr result (λ e. e ≡ Error.OutOfMemory) }
    {
        match self.row() {
            Some(row) => Ok(Value::of_default(alloc, row.default)?),
            None => Ok(None),
        }
    }

    // How the tag's value is shown.
    pub(crate) fn text_kind(self) -> TextKind
        ensures { result ≡ kind_of self }
    {
        match self.row() {
            Some(row) => row.kind,
            None => TextKind::Plain,
        }
    }

    // How the tag's value is shown, and the pieces of it with its unit.
    pub(crate) fn kind_and_unit(self) -> (TextKind, &'static [UnitPiece<'static>])
        ensures kind { result.0 ≡ kind_of self }
        ensures unit { map piece_view result.1.now ≡ unit_of self }
    {
        match self.row() {
            Some(row) => (row.kind, row.unit),
            None => (TextKind::Plain, &[]),
        }
    }

    // What the table says of the tag.
    #[tactic(auto, unfolding(crate::specs::TagRows::row_of_tag))]
    pub(crate) fn row(self) -> Option<&'static Row>
        ensures { option_map (λ r. row_view r.now) result ≡ row_of_tag self }
    {
        find_row(self.0, self.1)
    }

    // The context and the number; `Tag(Interop, 65535)` is the longest.
    fn numbered_text(self) -> ArrayString<19>
        ensures { result.bytes ≡ numbered_text self }
    {
        let mut text = ArrayString::new();
        text.push_str("Tag(");
        text.push_str(self.0.name());
        text.push_str(", ");
        text.push_str(Buffer::new().format(self.1));
        text.push_str(")");
        text
    }
}

impl fmt::Display for Tag {
    ghost use Rattle.exif_types.specs.TagTexts.{tag_text};

    ghost output = { λ tag. Some (tag_text tag) };

    ghost styled_output = { λ tag spec. Some (pad (tag_text tag)
        (unwrap_or (spec_width spec) 0) (unwrap_or (spec_align spec) Left)) };

    fn fmt<W: fmt::Write>(&self, f: &mut fmt::Formatter<W>) -> fmt::Result {
        match self.row() {
            Some(row) => write_padded(f, row.name, fmt::Alignment::Left),
            None => write_padded(f, self.numbered_text().as_str(), fmt::Alignment::Left),
        }
    }
}
