//! What the program `mexaldor` decides about paths, words and statuses before it opens a file, and
//! how it names files, tags and counts.
#![tactic(auto)]

mod counts;
mod endings;
mod escaped;
mod faults;
mod formats;
mod found;
mod mistake;
mod names;
mod outcome;
mod paths;
mod rules;
mod summary;
mod tags;
mod temporary;
mod timing;

pub use counts::{Counts, FormatCounts, SidecarCounts};
pub use endings::{Ending, ending_of};
pub use escaped::{Escaped, is_unreadable, readable};
pub use faults::SkippedFaults;
pub use formats::{Unsupported, unsupported_of};
pub use found::{Found, FoundStep, NotRead, found_of};
pub use mistake::{
    Aim, Fact, Mistake, change_aim, fact_named, files_mistake, is_given, thumbnail_aim,
    undo_mistake,
};
pub use names::names_listed;
pub use outcome::Outcome;
pub use paths::{is_inside, name_of, slash_after};
pub use rules::{
    Action, Destination, Existing, Kind, Look, NoDestination, action_of, destination_of,
    existing_of, is_assignment, is_own_name, is_temporary_name, kind_of, look_of,
};
pub use summary::Summary;
pub use tags::{canonical_word, nearest, write_tags};
pub use temporary::{Fate, fate_of};
pub use timing::is_line_due;
