//! The parts of a file that hold an XMP packet or a colour profile of its first picture.

ghost use Rattle.std.specs.Prelude.{◌≡◌};
ghost use Rattle.std.specs.Option.{option_map};
ghost use Rattle.exif_copy.specs.Parts.{bytes_of, data_of, first_data, holds, is_extension, is_of, slice};

use exif_blocks::Block;
use exif_inventory::{Kind, Part};
use exif_parts::split;

// The bytes from an offset on, so many if there are.
fn slice(offset: usize, len: usize, bytes: &[u8]) -> &[u8]
    ensures { result.now ≡ slice offset len bytes.now }
{
    split(len, split(offset, bytes).1).0
}

/// What a part of a file holds, behind its header.
pub fn data_of(part: Part, file: &[u8]) -> &[u8]
    ensures { result.now ≡ data_of part file.now }
{
    slice(part.data_offset, part.data_len, file)
}

/// The bytes of a part of a file.
pub fn bytes_of(part: Part, file: &[u8]) -> &[u8]
    ensures { result.now ≡ bytes_of part file.now }
{
    slice(part.offset, part.len, file)
}

// Whether parts of a kind hold such a block.
fn is_of(block: Block, kind: Kind) -> bool
    ensures { result ≡ is_of block kind }
{
    match block {
        Block::Xmp => matches!(kind, Kind::Xmp),
        Block::Profile => matches!(kind, Kind::IccProfile),
    }
}

/// Whether a part holds such a block of the first picture.
pub fn holds(block: Block, part: Part) -> bool
    ensures { result ≡ holds block part }
{
    part.picture == 0 && is_of(block, part.kind)
}

/// Whether a part goes on with the XMP packet of the first picture.
pub fn is_extension(part: Part) -> bool
    ensures { result ≡ is_extension part }
{
    part.picture == 0 && matches!(part.kind, Kind::ExtendedXmp)
}

/// The data of the first part that holds such a block.
pub fn first_data<'f>(block: Block, parts: &[Part], file: &'f [u8]) -> Option<&'f [u8]>
    ensures { option_map (λ data'. data'.now) result ≡ first_data block parts.now file.now }
{
    for part in parts {
        if holds(block, *part) {
            return Some(data_of(*part, file));
        }
    }
    None
}
