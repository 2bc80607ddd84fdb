//! What a run over a catalogue has of its pictures: the row of each, the page that shows them, and
//! what is reported of them.
#![tactic(auto)]

mod cards;
mod last;
mod page;
mod reports;
mod rows;
mod steps;

pub use last::LastPicture;
pub use page::page_of;
pub use reports::{move_text, reported_moves, reported_totals};
pub use rows::{is_hidden, is_whole};
pub use steps::{NextStep, step_of};
