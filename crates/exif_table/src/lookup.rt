//! The row of a tag.

ghost use Rattle.std.specs.Prelude.{◌≡◌, map};
ghost use Rattle.std.specs.Option.{option_map};
ghost use Rattle.exif_table.specs.Rows.{row_of};
ghost use Rattle.exif_table.specs.View.{row_view};

use crate::context::Context;
use crate::row::Row;
use crate::rows::rows;

/// The row of the tag with this number in its context, or `None` where the table has none.
pub fn find_row(context: Context, number: u16) -> Option<&'static Row>
    ensures { option_map (λ r. row_view r.now) result ≡ row_of context number }
{
    let rows = rows(context);
    match rows.binary_search_by_key(&number, |row| row.number) {
        Ok(place) => Some(&rows[place]),
        Err(_) => None,
    }
}
