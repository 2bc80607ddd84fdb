//! Files that get new names: the plan of new paths, and the moves.
#![tactic(auto)]

mod dates;
mod grouping;
pub mod laws;
mod lines;
mod moving;
mod naming;
mod nested;
mod order;
mod pattern;
mod plan;
mod present;
mod request;
mod starts;
mod together;
mod undo;
mod unused;

pub use dates::{DateTag, Dates};
pub use grouping::{Entry, group, split_path};
pub use lines::steps_of;
pub use moving::{Attributes, Moved, copy_file, move_file};
pub use naming::{Facts, Missing, Taken};
pub use nested::root_of;
pub use order::{Moment, Shot, compare_shots};
pub use pattern::{DatePart, Fault, Part, Pattern, PatternError};
pub use plan::{PlanError, plan_names};
pub use present::{Held, Presence, are_there, is_begun};
pub use request::{Move, RenameRequest, RequestFile, candidate};
pub use together::{Place, planned_order};
pub use undo::{Step, parse_line, write_line};
pub use unused::give_unused;
