//! A part of a video.

ghost use Rattle.std.specs.Prelude.{◌≡◌, length};
ghost use Rattle.exif_movie.specs.Parts.{bytes_of, data_of};

use crate::kind::Kind;

/// A part of a video: a whole box, or the header of a box whose content follows as parts.
#[derive(Clone, Copy, Debug, PartialEq, Eq)]
pub struct Part {
    /// What it holds.
    pub kind: Kind,
    /// In how many boxes it is: 0 for the boxes of the file and their headers.
    pub level: u8,
    /// The offset of its first byte.
    pub offset: usize,
    /// The offset of its content, behind the header.
    pub data_offset: usize,
    /// The offset of its end.
    pub end: usize,
}

/// The bytes of a part, as far as the file has them.
pub fn bytes_of(part: Part, file: &[u8]) -> &[u8]
    ensures bytes { result.now ≡ bytes_of part file.now }
{
    let prefix = &file[..file.len().min(part.end)];
    &prefix[prefix.len().min(part.offset)..]
}

/// The content of a part, behind its header, as far as the file has it.
pub fn data_of(part: Part, file: &[u8]) -> &[u8]
    ensures data { result.now ≡ data_of part file.now }
{
    let prefix = &file[..file.len().min(part.end)];
    &prefix[prefix.len().min(part.data_offset)..]
}
