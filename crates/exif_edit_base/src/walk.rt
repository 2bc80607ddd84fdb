//! A reading that answers the offsets of fields and directories.

ghost use Rattle.std.specs.Prelude.{◌≡◌, ◌++◌, None, Some, true, IfOk, OnOk};
ghost use Rattle.exif_tiff.specs.Answers.{raw_answer};
ghost use Rattle.exif_tiff.specs.Results.{AsksMemory, Says, SaysOrder};
ghost use Rattle.exif_tiff.specs.Trace.{cut, trace};
ghost use Rattle.exif_edit_base.specs.Locations.{gps_of, gps_offset};
ghost use Rattle.exif_edit_base.specs.Results.{parsed_of};
ghost use Rattle.exif_edit_base.specs.Walked.{Finds, IsWalkOf, WalksTo};

use exif_tiff::offsets::Offsets;
use exif_tiff::stop::Stop;
use exif_tiff::tiff::{Parsed, Placed, parse_located, parse_located_within};
use exif_tiff::{DirectoryOffset, EntryOffset};
use exif_types::Context;
use std::alloc::{AllocError, Global};
use std::marker::Model;

/// The offsets of the entries of fields and of directories, and those of GPS directories.
#[derive(Drop)]
pub struct Walk {
    offsets: Offsets,
    gps: Vec<u32>,
}

impl Model for Walk {
    ghost use Rattle.exif_edit_base.specs.Walked.{Walked};

    ghost Value = { Walked };

    ghost view = { λ w. record {
      entries = w.offsets.entries;
      gps = w.gps.items;
      directories = w.offsets.directories;
    } };
}

/// What was read, and its offsets.
#[derive(Drop)]
pub struct Located {
    pub parsed: Parsed,
    pub walk: Walk,
}

impl Walk {
    /// The offsets of entries, in the order of the fields.
    pub fn entries(&self) -> &[EntryOffset]
        ensures { result.now ≡ self.now.entries }
    {
        self.offsets.entries()
    }

    /// The offsets of GPS directories.
    pub fn gps(&self) -> &[u32]
        ensures { result.now ≡ self.now.gps }
    {
        self.gps.as_slice()
    }

    /// The directories, in the order in which reading visits them.
    pub fn directories(&self) -> &[DirectoryOffset]
        ensures { result.now ≡ self.now.directories }
    {
        self.offsets.directories()
    }
}

// Adds the offset of a directory, if it is one of GPS data.
fn add_gps(directory: DirectoryOffset, offsets: &mut Vec<u32>) -> Result<(), AllocError>
    ensures { OnOk result (offsets.new.items
        ≡ offsets.old.items ++ gps_offset directory.context directory.offset) }
{
    match directory.context {
        Context::Gps => offsets.push(directory.offset)?,
        Context::Tiff | Context::Exif | Context::Interop => {}
    }
    Ok(())
}

// The offsets of the GPS directories among directories.
fn gps_of(alloc: Global, directories: &[DirectoryOffset]) -> Result<Vec<u32>, AllocError>
    ensures { IfOk result (λ v. v.items ≡ gps_of directories.now) }
{
    let mut offsets = Vec::new(alloc);
    for directory in directories {
        add_gps(*directory, &mut offsets)?;
    }
    Ok(offsets)
}

// What was read, with the offsets of GPS directories among those that were noted.
fn located_in(alloc: Global, placed: Placed) -> Result<Located, AllocError>
    ensures parsed { IfOk result (λ located. located.parsed ≡ placed.parsed) }
    ensures offsets { IfOk result (λ located. IsWalkOf placed.offsets located.walk) }
{
    let gps = gps_of(alloc, placed.offsets.directories())?;
    let walk = Walk {
        offsets: placed.offsets,
        gps,
    };
    Ok(Located {
        parsed: placed.parsed,
        walk,
    })
}

/// Reads TIFF data leniently, and answers the offsets of what is read.
pub fn read_located(alloc: Global, bytes: &[u8]) -> Result<Located, Stop>
    ensures says { Says (parsed_of result) (raw_answer true None bytes.now) }
    ensures order { SaysOrder (parsed_of result) bytes.now }
    ensures memory { AsksMemory (parsed_of result) bytes.now }
    ensures offsets { IfOk result (λ located. Finds bytes.now located.walk) }
{
    let placed = parse_located(alloc, bytes)?;
    let located = located_in(alloc, placed)?;
    Ok(located)
}

/// Reads TIFF data leniently up to a limit on the visited entries, and answers the offsets of what
/// is read.
pub fn read_located_within(alloc: Global, bytes: &[u8], limit: u64) -> Result<Located, Stop>
    ensures says { Says (parsed_of result) (raw_answer true (Some limit) bytes.now) }
    ensures order { SaysOrder (parsed_of result) bytes.now }
    ensures memory { AsksMemory (parsed_of result) bytes.now }
    ensures offsets { IfOk result
        (λ located. WalksTo (cut limit (trace bytes.now)) located.walk) }
{
    let placed = parse_located_within(alloc, bytes, limit)?;
    let located = located_in(alloc, placed)?;
    Ok(located)
}
