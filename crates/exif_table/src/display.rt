//! The texts of values as their tags show them, written from borrowed contents without memory.

mod fixed;
mod flash;
mod fractions;
pub mod kinds;
mod letters;
mod numbers;
mod versions;

pub use kinds::write_value;
