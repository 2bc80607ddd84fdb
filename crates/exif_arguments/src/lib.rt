//! The command line of `mexaldor`: its subcommands and their options, and the request that those
//! make which are given, or what is wrong with them.
#![tactic(auto)]

mod arguments;
mod changes;
mod given;
mod jobs;
mod options;
mod requests;
mod selection;
mod tags;

pub use arguments::{command, subcommand};
pub use given::{is_set, text_of, text_or_empty};
pub use requests::request_of;
pub use selection::{Answer, Wrong};
