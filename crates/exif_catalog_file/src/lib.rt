//! The SQLite file of a catalogue: opened or copied for a job, its tables, and what is read of it:
//! the answers of queries, and its pictures.
#![tactic(auto)]

mod answers;
mod cells;
mod copies;
mod database;
mod errors;
mod heads;
mod opening;
mod schema;
mod tables;
mod text;
mod visiting;

pub use answers::{Lines, query};
pub use cells::{is_query, push_text};
pub use database::{Job, commit, number_at, prepare, prepare_tables, text_at};
pub use errors::{CatalogError, RunError, too_many};
pub use opening::change;
pub use schema::{VERSION, create_text};
pub use text::text_of;
pub use visiting::{PictureRow, Visitor, visit};
