//! Fields of the data.

ghost use Rattle.std.specs.Prelude.{◌≡◌, ◌++◌, map, option_map};
ghost use Rattle.json.specs.Tree.{json_tokens};
ghost use Rattle.exif_json.specs.Fields.{chosen_json, chosen_tokens, contents_members, count_json, field_json, fields_json, has_one_of, name_members};
ghost use Rattle.exif_json.specs.Prints.{Prints};
ghost use Rattle.exif_json.specs.Trees.{parts_tokens};

use crate::printer::Printer;
use crate::values::write_value;
use exif::{Exif, Field, Tag, Value};
use exif_types::fields_left;
use std::alloc::AllocError;

/// Writes the members that say where the field is: its context, its tag and its directory.
fn write_name(printer: &mut Printer, field: &Field) -> Result<(), AllocError>
    ensures { Prints result printer.old.out printer.new.out
        (parts_tokens (name_members field.now)) }
{
    printer.text_member("context", field.tag.context().name())?;
    printer.number_member("tag", u64::from(field.tag.number()))?;
    printer.shown_member("name", field.tag)?;
    printer.number_member("directory", u64::from(field.ifd_num.index()))
}

/// Writes how many items a value has.
fn write_count(printer: &mut Printer, value: &Value) -> Result<(), AllocError>
    ensures { Prints result printer.old.out printer.new.out (json_tokens (count_json value.now)) }
{
    match value.count() {
        Some(count) => printer.out.u64(u64::from(count)),
        None => printer.out.null(),
    }
}

/// Writes the members that say what the field holds: its type, its count, its value and how it
/// is printed with its unit.
fn write_contents(printer: &mut Printer, exif: &Exif, field: &Field) -> Result<(), AllocError>
    ensures { Prints result printer.old.out printer.new.out
        (parts_tokens (contents_members exif.now.fields field.now)) }
{
    let value = &field.value;
    printer.number_member("type", u64::from(value.type_number()))?;
    printer.out.key("count")?;
    write_count(printer, value)?;
    printer.out.key("value")?;
    write_value(printer, value)?;
    printer.shown_member("text", field.display_value().with_unit(exif))
}

/// Writes an object for a field, whose unit is looked up among those of `exif`.
fn write_field(printer: &mut Printer, exif: &Exif, field: &Field) -> Result<(), AllocError>
    ensures { Prints result printer.old.out printer.new.out
        (json_tokens (field_json exif.now.fields field.now)) }
{
    printer.out.begin_object()?;
    write_name(printer, field)?;
    write_contents(printer, exif, field)?;
    printer.out.end_object()
}

/// Writes an array of the fields.
fn write_all_fields(printer: &mut Printer, exif: &Exif) -> Result<(), AllocError>
    ensures { Prints result printer.old.out printer.new.out
        (json_tokens (fields_json exif.now.fields)) }
{
    printer.out.begin_array()?;
    for field in fields_left(&exif.fields()) {
        write_field(printer, exif, field)?;
    }
    printer.out.end_array()
}

/// Whether a field has one of some tags.
fn has_one_of(tags: &[Tag], field: &Field) -> bool
    ensures { result ≡ has_one_of tags.now field.now }
{
    tags.iter().any(|tag| *tag == field.tag)
}

/// Writes an object for a field, if it has one of some tags.
fn write_if_chosen(
    printer: &mut Printer,
    exif: &Exif,
    tags: &[Tag],
    field: &Field,
) -> Result<(), AllocError>
    ensures { Prints result printer.old.out printer.new.out
        (chosen_tokens tags.now exif.now.fields field.now) }
{
    if has_one_of(tags, field) {
        write_field(printer, exif, field)
    } else {
        Ok(())
    }
}

/// Writes an array of the fields that have one of some tags.
fn write_chosen_fields(printer: &mut Printer, exif: &Exif, tags: &[Tag]) -> Result<(), AllocError>
    ensures { Prints result printer.old.out printer.new.out
        (json_tokens (chosen_json (Some tags.now) exif.now.fields)) }
{
    printer.out.begin_array()?;
    for field in fields_left(&exif.fields()) {
        write_if_chosen(printer, exif, tags, field)?;
    }
    printer.out.end_array()
}

/// Writes an array of the fields: of all, or of those that have one of some tags.
pub(crate) fn write_fields(
    printer: &mut Printer,
    exif: &Exif,
    tags: Option<&[Tag]>,
) -> Result<(), AllocError>
    ensures { Prints result printer.old.out printer.new.out
        (json_tokens (chosen_json (option_map (λ t. t.now) tags.entry) exif.now.fields)) }
{
    match tags {
        Some(tags) => write_chosen_fields(printer, exif, tags),
        None => write_all_fields(printer, exif),
    }
}
