//! What the program `mexaldor` does with what its arguments request.
#![tactic(auto)]

mod check;
mod copying;
mod dispatch;
mod geotag;
mod objects;
mod reads;
mod show;
mod table;
mod thumbnail;
mod touch;
mod values;

pub use dispatch::run;
