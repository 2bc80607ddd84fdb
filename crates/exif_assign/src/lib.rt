//! What people write to change fields: tags with values.
#![tactic(auto)]

mod assignment;
mod fitting;
pub mod laws;
mod rules;
mod spelled;
mod values;

pub use assignment::Assignment;
pub use rules::{Spelling, spelling_of, type_of_new};
pub use spelled::ValueError;
pub use values::value_of;
