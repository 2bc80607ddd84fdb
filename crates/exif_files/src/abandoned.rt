//! Temporary files of runs that were interrupted.

use std::fs::{self, OpenOptions};
use std::io;
use std::os::unix::fs::MetadataExt;
use std::time::{Duration, SystemTime};

// How many seconds a file was not changed before it counts as abandoned: a run locks a file right
// after it made it.
const QUIET: u64 = 2;

/// Removes a temporary file whose run has ended, and answers whether it did. The caller has seen by
/// its name that it is one of [`HostFiles`](crate::HostFiles), which locks the files that it writes:
/// one that can be locked is written by nobody. A link, a file with a second name and one that was
/// changed in the last two seconds stay, and so do all where the file system has no locks.
pub fn remove_abandoned(rt: &HostRuntime, path: &str) -> io::Result<bool> {
    if !is_quiet(rt, path)? {
        return Ok(false);
    }
    let file = OpenOptions::new().append(true).open(rt, path)?;
    if file.try_lock().is_err() {
        return Ok(false);
    }
    fs::remove_file(rt, path)?;
    Ok(true)
}

// Whether a file is a regular one with one name, and was not changed lately.
fn is_quiet(rt: &HostRuntime, path: &str) -> io::Result<bool> {
    let found = fs::symlink_metadata(rt, path)?;
    let changed = Duration::from_secs(u64::try_from(found.ctime()).unwrap_or(u64::MAX));
    let since = match SystemTime::now(rt)?.duration_since(SystemTime::UNIX_EPOCH) {
        Ok(now) => now.saturating_sub(changed),
        Err(_before) => Duration::ZERO,
    };
    Ok(found.is_file() && found.nlink() == 1 && since > Duration::from_secs(QUIET))
}
