//! Runs over a catalogue: a row for each picture in a SQLite file, with what it says in each
//! column.
#![tactic(auto)]

mod catalog;
mod hashes;
mod known;
mod laws;
mod moving;
mod statements;
mod totals;
mod updating;
mod values;

pub use hashes::Move;
pub use known::{Known, Rows, Side, Stamp, is_below, is_unchanged, mark_of, see, side_of};
pub use laws::columns_take_values;
pub use moving::{Hashed, Moved, moves_of};
pub use statements::insert_text;
pub use totals::{Outcome, Totals};
pub use updating::{FileRow, Found, Pictures, Updated, update};
pub use values::{PictureFile, SqlValue, row_values};
