//! Files that get other names, by when and with which camera they were taken, and renames that are
//! taken back.
#![tactic(auto)]

mod backs;
mod counting;
mod gathering;
mod members;
mod moves;
mod names;
mod planned;
mod present;
mod rename;
mod run;
mod same;
mod stems;
mod undo;
mod words;

pub use run::run_renames;
