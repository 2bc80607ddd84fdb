//! The offsets of entries and directories, noted where they are asked for.

ghost use Rattle.std.specs.Prelude.{◌≡◌, [], OnOk};
ghost use Rattle.exif_tiff.specs.Noted.{directory_noted, entry_noted};

use crate::{DirectoryOffset, EntryOffset};
use std::alloc::{AllocError, Global};
use std::marker::Model;

/// Where the entries of fields and the directories are, in the order of a reading. Where nobody
/// requests them, none is noted, and no memory is taken.
#[derive(Drop)]
pub struct Offsets {
    asked: bool,
    entries: Vec<EntryOffset>,
    directories: Vec<DirectoryOffset>,
}

impl Model for Offsets {
    ghost use Rattle.exif_tiff.specs.Noted.{Noted};

    ghost Value = { Noted };

    ghost view = { λ p. record {
      asked = p.asked;
      entries = p.entries.items;
      directories = p.directories.items;
    } };
}

impl Offsets {
    /// No offsets yet.
    pub fn new(alloc: Global, asked: bool) -> Offsets
        ensures { result ≡ record { asked = asked; entries = []; directories = [] } }
    {
        Offsets {
            asked,
            entries: Vec::new(alloc),
            directories: Vec::new(alloc),
        }
    }

    /// Notes the entry of a field.
    pub fn entry(&mut self, offset: EntryOffset) -> Result<(), AllocError>
        ensures { OnOk result (self.new ≡ entry_noted self.old offset) }
    {
        if self.asked {
            self.entries.push(offset)?;
        }
        Ok(())
    }

    /// Notes a directory.
    pub fn directory(&mut self, offset: DirectoryOffset) -> Result<(), AllocError>
        ensures { OnOk result (self.new ≡ directory_noted self.old offset) }
    {
        if self.asked {
            self.directories.push(offset)?;
        }
        Ok(())
    }

    /// The offsets of entries, in the order of the fields.
    pub fn entries(&self) -> &[EntryOffset]
        ensures { result.now ≡ self.now.entries }
    {
        self.entries.as_slice()
    }

    /// The directories, in the order in which they are visited.
    pub fn directories(&self) -> &[DirectoryOffset]
        ensures { result.now ≡ self.now.directories }
    {
        self.directories.as_slice()
    }
}
