//! A part of a file.

use crate::kind::Kind;

/// A part of a file: so many bytes from an offset on.
#[derive(Clone, Copy, Debug)]
pub struct Part {
    /// What it holds.
    pub kind: Kind,
    /// Which picture of the file it belongs to: 0 is the first.
    pub picture: u64,
    /// The offset of its first byte.
    pub offset: usize,
    /// How many bytes it has.
    pub len: usize,
    /// The offset of what it holds, behind its header and its identifier.
    pub data_offset: usize,
    /// How many bytes that has, without padding.
    pub data_len: usize,
}
