//! What a walk over the directories of a file does.

/// What a walk over the directories of a file does with each.
#[derive(Clone, Copy)]
pub enum Pass {
    /// Keeps it and its picture, and its orientation if this is so.
    Keep(bool),
    /// Refuses the new file if one of the strips, tiles and JPEG streams does not have the bytes
    /// there that stay.
    Pictures,
    /// Refuses it if one of its tags does not describe the picture, or a JPEG stream of it has
    /// metadata. The orientation describes the picture if this is so.
    Tags(bool),
}

/// How a walk handles the bytes of a picture.
#[derive(Clone, Copy)]
pub struct Handling {
    /// What it does.
    pub pass: Pass,
    /// Whether they are JPEG streams.
    pub is_stream: bool,
}
