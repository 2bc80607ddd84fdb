//! What the program `mexaldor` does with a catalogue: it brings it up to date, answers queries, and
//! makes a page of it.
#![tactic(auto)]

mod catalog;
mod gathering;
mod paging;
mod query;
mod refusals;

pub use catalog::run_catalog;
pub use paging::write_page;
pub use query::answer_query;
