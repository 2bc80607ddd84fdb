//! What is taken out of a file.

/// What is taken out of a file that is written again.
#[derive(Clone, Copy, Debug)]
pub enum Remove {
    /// The Exif data alone.
    Exif,
    /// All metadata: what says something of the picture, and is not needed to show it.
    Metadata,
}
