//! Partial results, and what is read from sources of a caller's own.

mod own;
mod partial;
