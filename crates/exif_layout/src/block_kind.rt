//! The kinds of blocks that a directory names.

/// What the blocks of a directory hold (TIFF 6.0, sections 3 and 15; Exif 2.32, 4.5.8).
#[derive(Clone, Copy, Debug, PartialEq, Eq)]
pub enum BlockKind {
    /// Strips of an image.
    Strips,
    /// Tiles of an image.
    Tiles,
    /// One thumbnail, compressed by JPEG.
    Jpeg,
}
