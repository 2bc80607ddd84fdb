//! What files are at a moment, by which a change is noticed.

ghost use Rattle.std.specs.Prelude.{◌≡◌};
ghost use Rattle.exif_inputs.specs.Stamps.{stamp_by};

use std::fs::{self, Metadata};
use std::io;
use std::os::unix::fs::MetadataExt;

/// What a file is at a moment. Times are in seconds from 1970 on, and the nanoseconds behind them.
#[derive(Clone, Copy)]
pub struct FileStamp {
    /// How many bytes it has.
    pub size: Option<u64>,
    /// When its bytes were changed, as the file says, which programs can set.
    pub modified: Option<u64>,
    /// The nanoseconds of that.
    pub modified_ns: Option<u64>,
    /// When its bytes or attributes were changed, as the system counts it.
    pub changed: Option<u64>,
    /// The nanoseconds of that.
    pub changed_ns: Option<u64>,
    /// The number of its file system.
    pub device: Option<u64>,
    /// Its number in that.
    pub inode: Option<u64>,
}

impl FileStamp {
    /// Nothing is known.
    pub const UNKNOWN: FileStamp = FileStamp {
        size: None,
        modified: None,
        modified_ns: None,
        changed: None,
        changed_ns: None,
        device: None,
        inode: None,
    };
}

/// What a regular file is now; nothing is known of anything else.
pub fn stamp_of(rt: &HostRuntime, path: &str) -> FileStamp {
    let found = fs::metadata(rt, path).map(|found| (found.is_file(), stamp_in(&found)));
    stamp_by(found)
}

// What is known of a file, by whether it is a regular one and what it is.
fn stamp_by(found: io::Result<(bool, FileStamp)>) -> FileStamp
    ensures { result ≡ stamp_by found }
{
    match found {
        Ok((true, stamp)) => stamp,
        Ok((false, _)) | Err(_) => FileStamp::UNKNOWN,
    }
}

fn stamp_in(found: &Metadata) -> FileStamp {
    FileStamp {
        size: Some(found.len()),
        modified: u64::try_from(found.mtime()).ok(),
        modified_ns: u64::try_from(found.mtime_nsec()).ok(),
        changed: u64::try_from(found.ctime()).ok(),
        changed_ns: u64::try_from(found.ctime_nsec()).ok(),
        device: Some(found.dev()),
        inode: Some(found.ino()),
    }
}
