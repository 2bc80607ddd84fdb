//! The lines of all values of a picture.

ghost use Rattle.std.specs.Prelude.{◌≡◌, [], IfOk, map, string_bytes};
ghost use Rattle.exif_iptc.specs.Values.{value_view};
ghost use Rattle.exif_show_text.specs.Lines.{iptc_behind, lines_text, xmp_behind};
ghost use Rattle.exif_values.specs.Values.{values_view};
ghost use Rattle.exif_xmp.specs.Properties.{property_view};

use crate::iptc::iptc_line;
use crate::xmp::xmp_line;
use exif_iptc::Value;
use exif_values::Values;
use exif_xmp::Property;
use std::alloc::{AllocError, Global};

// The lines of properties.
fn of_properties(alloc: Global, properties: &[Property]) -> Result<String, AllocError>
    ensures { IfOk result (λ text. string_bytes text
        ≡ xmp_behind [] (map property_view properties.now)) }
{
    let mut text = String::new(alloc);
    for property in properties {
        text.push_str(xmp_line(alloc, property)?.as_str())?;
    }
    Ok(text)
}

// A text, and behind it the lines of datasets.
fn of_datasets(alloc: Global, mut text: String, values: &[Value]) -> Result<String, AllocError>
    ensures { IfOk result (λ all. string_bytes all
        ≡ iptc_behind (string_bytes text) (map value_view values.now)) }
{
    for value in values {
        text.push_str(iptc_line(alloc, value)?.as_str())?;
    }
    Ok(text)
}

/// The lines of the XMP properties and behind them those of the IPTC datasets of a picture, in their
/// order. It takes the memory of the lines.
pub fn lines_of(alloc: Global, values: &Values) -> Result<String, AllocError>
    ensures { IfOk result (λ text. string_bytes text ≡ lines_text (values_view values.now)) }
{
    let text = of_properties(alloc, values.xmp.as_slice())?;
    of_datasets(alloc, text, values.iptc.as_slice())
}
