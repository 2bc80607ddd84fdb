//! The piece of a picture that comes next.

/// A marker, a segment, a chunk, a box, or bytes of a scan.
#[derive(Clone, Copy)]
pub struct Step {
    /// How many bytes it has.
    pub len: usize,
    /// Whether these are as many as its standard gives it.
    pub fits: bool,
    /// Whether bytes of a scan may come next.
    pub scanning: bool,
}
