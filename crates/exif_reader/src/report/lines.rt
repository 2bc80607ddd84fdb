//! The lines of a report.

ghost use Rattle.std.specs.Prelude.{◌≡◌, ◌++◌, OnOk, IfErr};
ghost use Rattle.std.specs.String.{string_bytes};
ghost use Rattle.exif_types.specs.Failures.{IsInvalidFormat};
ghost use Rattle.exif_reader.specs.Lines.{field_line, error_line};

use exif_types::{Error, Exif, Field};
use std::fmt::Write;

/// Puts a field's line at the end of the text: its tag, its directory and its value with its unit,
/// whose tags are looked up in `exif`. Where memory runs out, a front of the line may be there.
#[tactic(auto, unfolding(crate::specs::Lines::field_line))]
pub fn push_field_line(text: &mut String, exif: &Exif, field: &Field) -> Result<(), Error>
    ensures text { OnOk result (string_bytes text.new
        ≡ string_bytes text.old ++ field_line exif.now.fields field.now) }
    ensures memory { IfErr result (λ e. e ≡ Error.OutOfMemory) }
{
    let value = field.display_value().with_unit(exif);
    match write!(text, "{} {} {value}\n", field.tag, field.ifd_num) {
        Ok(()) => Ok(()),
        Err(_) => Err(Error::OutOfMemory),
    }
}

/// Puts the line of a fault, which is an invalid format, in place of the text.
#[tactic(auto, unfolding(crate::specs::Lines::error_line, crate::specs::Lines::fault_line))]
pub fn set_error_line(line: &mut String, error: &Error) -> Result<(), Error>
    requires { IsInvalidFormat error.now }
    ensures text { OnOk result (string_bytes line.new ≡ error_line error.now) }
    ensures memory { IfErr result (λ e. e ≡ Error.OutOfMemory) }
{
    line.clear();
    match write!(line, "fault: {error}\n") {
        Ok(()) => Ok(()),
        Err(_) => Err(Error::OutOfMemory),
    }
}
