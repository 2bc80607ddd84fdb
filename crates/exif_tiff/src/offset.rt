//! Where directories and their entries are in TIFF data.

use exif_types::Context;

/// Where a directory is, and its kind.
#[derive(Clone, Copy, Debug)]
pub struct DirectoryOffset {
    pub offset: u32,
    pub context: Context,
}

/// Where the entry of a field is, and the directory that has it.
#[derive(Clone, Copy, Debug)]
pub struct EntryOffset {
    pub entry: u32,
    pub directory: u32,
}
