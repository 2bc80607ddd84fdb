//! The tags of Exif 2.32, the fixed texts of their values, and how a value is shown by its tag.
#![tactic(auto)]

pub mod context;
pub mod display;
pub mod fixed;
pub mod kind;
pub mod laws;
pub mod lookup;
pub mod row;
pub mod rows;

pub use context::Context;
pub use fixed::{Choice, FixedTexts, fixed_texts};
pub use kind::TextKind;
pub use lookup::find_row;
pub use row::{DefaultValue, Row, UnitPiece};
