//! The examples of the guides, and the tests in code of all layers, each by its public calls: what
//! neither a contract nor a case of `exif_vectors` says. Devices and disks that fail, memory that
//! runs out, texts at every width, closures, patches, and what the examples answer.
#![tactic(auto)]

pub mod examples;
#[cfg(test)]
mod tests;
