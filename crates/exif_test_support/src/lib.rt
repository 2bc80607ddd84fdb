//! What the tests above the reader use: small worked files, devices that give or take little and
//! then fail, a file system in memory in which one of the calls fails, memory that runs short, and
//! checks of what was read and written.
#![tactic(auto)]

pub mod answers;
pub mod devices;
pub mod files;
pub mod found;
mod memory;
pub mod readings;
pub mod shortage;
pub mod streams;
pub mod writings;

pub use memory::{MemoryFiles, Stored};
