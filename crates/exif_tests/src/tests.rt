//! A file or a folder for each topic. `devices` are the readers and writers that the others use.

mod base;
mod counted;
mod devices;
mod edits;
mod examples;
mod faults;
mod files;
mod flushes;
mod fractions;
mod going_back;
mod lists;
mod memory;
mod once;
mod printing;
mod reading;
mod skips;
mod types;
mod words;
mod writing;
