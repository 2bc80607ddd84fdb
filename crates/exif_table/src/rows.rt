//! The rows of the tag table, by context.

ghost use Rattle.std.specs.Prelude.{◌≡◌, IsTrue, map};
ghost use Rattle.exif_table.specs.Rows.{rows_of};
ghost use Rattle.exif_table.specs.Rising.{is_rising};
ghost use Rattle.exif_table.specs.View.{row_view};

/// A row: number, name and description, the kind of its text, and where it has them its unit and
/// its default.
macro_rules! row {
    ($number:literal $name:literal $description:literal, $kind:ident
        $(, unit [$($piece:expr),*])? $(, default $default:expr)?) => {
        Row {
            number: $number,
            name: $name,
            description: $description,
            kind: TextKind::$kind,
            unit: &[$($($piece),*)?],
            default: row!(default $($default)?),
        }
    };
    (default) => {
        DefaultValue::None
    };
    (default $default:expr) => {
        $default
    };
}

mod exif;
mod gps;
mod interop;
mod tiff;

use crate::context::Context;
use crate::row::Row;

/// The rows of a context, numbers ascending.
pub fn rows(context: Context) -> &'static [Row]
    ensures rows { map row_view result.now ≡ rows_of context }
    ensures rising { IsTrue (is_rising (λ r. r.number) result.now) }
{
    match context {
        Context::Tiff => tiff::rows(),
        Context::Exif => exif::rows(),
        Context::Gps => gps::rows(),
        Context::Interop => interop::rows(),
    }
}
