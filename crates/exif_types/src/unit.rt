//! Values with their units.

ghost use Rattle.std.specs.Prelude.{◌≡◌, List, [], ◌∷◌, Some, map};
ghost use Rattle.std.specs.Fmt.{WritesOnOk};
ghost use Rattle.std.specs.Option.{option_copied};
ghost use Rattle.exif_table.specs.View.{default_view, piece_view};
ghost use Rattle.exif_types.specs.Defaults.{default_as};
ghost use Rattle.exif_types.specs.Lookup.{last_named};
ghost use Rattle.exif_types.specs.Units.{default_text, missing_text, pieces_text, shown_or, sibling_text};
ghost use Rattle.exif_types.specs.ValueTexts.{shown_text, text_of};

use crate::{Display, Exif, Field, In, Rational, Tag};
use exif_table::display::write_value;
use exif_table::{DefaultValue, UnitPiece};
use exif_text::Contents;
use std::fmt;
use std::marker::Model;

/// Where the fields are looked up that the units of values name.
pub trait ProvideUnit<'a>: Copy {
    ghost use Rattle.exif_types.specs.declared.field.Field.{Field};

    ghost fields: { Self → List Field };

    /// The last field with this tag and this directory.
    fn get_field(self, tag: Tag, ifd_num: In) -> Option<&'a Field>
        ensures { option_copied result ≡ last_named (fields self) tag ifd_num };
}

/// No fields at all.
impl<'a> ProvideUnit<'a> for () {
    ghost fields = { λ _. [] };

    fn get_field(self, _tag: Tag, _ifd_num: In) -> Option<&'a Field> {
        None
    }
}

/// This field alone.
impl<'a> ProvideUnit<'a> for &'a Field {
    ghost fields = { λ field. field.now ∷ [] };

    fn get_field(self, tag: Tag, ifd_num: In) -> Option<&'a Field> {
        if self.is_named(tag, ifd_num) {
            Some(self)
        } else {
            None
        }
    }
}

/// The fields that were read.
impl<'a> ProvideUnit<'a> for &'a Exif {
    ghost fields = { λ exif. exif.now.fields };

    fn get_field(self, tag: Tag, ifd_num: In) -> Option<&'a Field> {
        Exif::get_field(self, tag, ifd_num)
    }
}

/// The value of a field, shown as its tag says and with its unit.
#[derive(Drop)]
pub struct DisplayValueUnit<'a, T> {
    field: &'a Field,
    unit: T,
}

impl<'a, T> Model for DisplayValueUnit<'a, T> {
    ghost use Rattle.exif_types.specs.Units.{FieldWithUnit};

    ghost Value = { FieldWithUnit T };

    ghost view = { λ d. record { field = d.field.now; unit = d.unit } };
}

impl<'a, T: ProvideUnit<'a>> DisplayValueUnit<'a, T> {
    pub(crate) fn new(field: &'a Field, unit: T) -> DisplayValueUnit<'a, T>
        ensures { result ≡ record { field = field.now; unit = unit } }
    {
        DisplayValueUnit { field, unit }
    }
}

impl<'a, T: ProvideUnit<'a>> fmt::Display for DisplayValueUnit<'a, T> {
    ghost use Rattle.exif_types.specs.Units.{unit_text};

    ghost output = { λ d. Some (unit_text d.field (T.fields d.unit)) };

    #[tactic(auto, unfolding(crate::specs::Units::unit_text, crate::specs::ValueTexts::text_of))]
    fn fmt<W: fmt::Write>(&self, f: &mut fmt::Formatter<W>) -> fmt::Result {
        let field = self.field;
        let (kind, pieces) = field.tag.kind_and_unit();
        let shown = field.value.display_by(kind);
        write_pieces(f, pieces, shown, field, self.unit)
    }
}

// Writes the value of a field, which is shown so, among the pieces of its unit.
fn write_pieces<'a, T: ProvideUnit<'a>, W: fmt::Write>(
    f: &mut fmt::Formatter<W>,
    pieces: &[UnitPiece<'_>],
    shown: Display<'_>,
    field: &Field,
    unit: T,
) -> fmt::Result
    requires { shown_text shown ≡ text_of field.now.tag field.now.value }
    ensures { WritesOnOk W.write_str_gives f.old result
        (pieces_text field.now (T.fields unit) (map piece_view pieces.now)) f.new }
{
    if pieces.is_empty() {
        return write!(f, "{shown}");
    }
    for piece in pieces {
        match *piece {
            UnitPiece::Value => write!(f, "{shown}")?,
            UnitPiece::Str(text) => f.write_str(text)?,
            UnitPiece::Tag(context, number) => {
                write_sibling(f, Tag(context, number), field.ifd_num, unit)?;
            }
        }
    }
    Ok(())
}

// Writes the value of another tag of a directory.
fn write_sibling<'a, T: ProvideUnit<'a>, W: fmt::Write>(
    f: &mut fmt::Formatter<W>,
    tag: Tag,
    ifd_num: In,
    unit: T,
) -> fmt::Result
    ensures { WritesOnOk W.write_str_gives f.old result
        (sibling_text (T.fields unit) ifd_num tag) f.new }
{
    match unit.get_field(tag, ifd_num) {
        Some(field) => write!(f, "{}", field.value.display_as(tag)),
        None => write_default(f, tag),
    }
}

// Writes the default of an absent tag.
fn write_default<W: fmt::Write>(f: &mut fmt::Formatter<W>, tag: Tag) -> fmt::Result
    ensures { WritesOnOk W.write_str_gives f.old result (default_text tag) f.new }
{
    match tag.row() {
        Some(row) => write_default_value(f, tag, row.default),
        None => write_missing(f, tag),
    }
}

#[tactic(auto, unfolding(crate::specs::ValueTexts::text_of))]
fn write_default_value<W: fmt::Write>(
    f: &mut fmt::Formatter<W>,
    tag: Tag,
    default: DefaultValue,
) -> fmt::Result
    ensures { WritesOnOk W.write_str_gives f.old result
        (shown_or tag (default_as (default_view default)) (missing_text tag)) f.new }
{
    let kind = tag.text_kind();
    match default {
        DefaultValue::Byte(bytes) => write_value(f, kind, Contents::Byte(bytes)),
        DefaultValue::Ascii(text) => write_value(f, kind, Contents::Text(text)),
        DefaultValue::Short(numbers) => write_value(f, kind, Contents::Short(numbers)),
        DefaultValue::Rational(num, denom) => {
            let fraction = [Rational { num, denom }];
            write_value(f, kind, Contents::Rational(&fraction))
        }
        DefaultValue::Undefined(bytes) => write_value(f, kind, Contents::Undefined(bytes)),
        DefaultValue::None | DefaultValue::ContextDependent | DefaultValue::Unspecified => {
            write_missing(f, tag)
        }
    }
}

fn write_missing<W: fmt::Write>(f: &mut fmt::Formatter<W>, tag: Tag) -> fmt::Result
    ensures { WritesOnOk W.write_str_gives f.old result (missing_text tag) f.new }
{
    write!(f, "[{tag} missing]")
}
