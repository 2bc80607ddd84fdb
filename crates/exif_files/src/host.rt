//! The file system of the host. What its files hold is not known to contracts.

ghost use Rattle.std.specs.Prelude.{◌≡◌, ◌≢◌, ◌≤◌, ◌<◌, [], IfOk, IsTrue, length};
ghost use Rattle.exif_files.specs.Steps.{count_after};

use crate::folder::folder_of;
use crate::system::FileSystem;
use std::alloc::Global;
use std::fs::{self, File, FileTimes, Metadata, OpenOptions};
use std::io::{self, ErrorKind, Write};
use std::os::unix::fs::{MetadataExt, OpenOptionsExt, fchown};
use std::path::Path;

/// The file system of the host. A name is a path. A file that was read here is replaced only if it
/// is still the one that was read: another program may have changed it meanwhile.
#[derive(Drop)]
pub struct HostFiles<'r> {
    rt: &'r HostRuntime,
    // the file that is being written, which is locked where the file system has locks
    current: Option<Current>,
    // the file that was read last
    known: Option<Known>,
    failures: u64,
}

// A file that was read, and what it was then.
#[derive(Drop)]
struct Known {
    name: String,
    stamp: Stamp,
}

// What a file is at a moment: which file, how long, when its bytes and when its attributes were
// changed last, in seconds and nanoseconds.
#[derive(Clone, Copy, PartialEq, Eq)]
struct Stamp {
    device: u64,
    inode: u64,
    length: u64,
    modified: (i64, i64),
    changed: (i64, i64),
}

#[derive(Drop)]
struct Current {
    name: String,
    file: File,
}

impl<'r> HostFiles<'r> {
    /// All files of the host.
    pub fn new(rt: &'r HostRuntime) -> HostFiles<'r> {
        HostFiles {
            rt,
            current: None,
            known: None,
            failures: 0,
        }
    }

    // Counts a call where it failed.
    fn count(&mut self, failed: bool)
        ensures { self.new.failures ≡ count_after failed self.old.failures }
    {
        if failed {
            self.failures = self.failures.saturating_add(1);
        }
    }

    fn try_create(&mut self, name: &str, mode: u32) -> io::Result<bool>
        ensures { self.new.failures ≡ self.old.failures }
    {
        let text = String::from_str(self.rt.alloc(), name)?;
        let created = OpenOptions::new()
            .write(true)
            .create_new(true)
            .mode(mode)
            .open(self.rt, name);
        match created {
            Ok(file) => {
                // not all file systems have locks
                let _ = file.try_lock();
                self.current = Some(Current { name: text, file });
                Ok(true)
            }
            Err(error) if error.kind() == ErrorKind::AlreadyExists => Ok(false),
            Err(error) => Err(error),
        }
    }

    // The file that is being written, which the caller gives back.
    fn take_current(&mut self, name: &str) -> io::Result<Current>
        ensures { self.new.failures ≡ self.old.failures }
    {
        match self.current.take() {
            Some(current) if current.name.as_str() == name => Ok(current),
            _ => {
                let file = OpenOptions::new().append(true).open(self.rt, name)?;
                let name = String::from_str(self.rt.alloc(), name)?;
                Ok(Current { name, file })
            }
        }
    }

    fn try_append(&mut self, name: &str, bytes: &[u8]) -> io::Result<usize>
        ensures bound { IfOk result (λ n. n ≤ length bytes.now) }
        ensures some { 0 < length bytes.now → IfOk result (λ n. 0 < n) }
        ensures count { self.new.failures ≡ self.old.failures }
    {
        let mut current = self.take_current(name)?;
        let taken = current.file.write(bytes);
        self.current = Some(current);
        let n = taken?;
        if n == 0 && !bytes.is_empty() {
            return Err(io::Error::new(ErrorKind::WriteZero, "no byte was written"));
        }
        Ok(n)
    }

    fn try_copy_owner(&mut self, source: &str, name: &str) -> io::Result<()>
        ensures { self.new.failures ≡ self.old.failures }
    {
        let old = fs::metadata(self.rt, source)?;
        let current = self.take_current(name)?;
        let copied = fchown(&current.file, Some(old.uid()), Some(old.gid()));
        self.current = Some(current);
        copied
    }

    fn try_copy_mode(&mut self, source: &str, name: &str) -> io::Result<()>
        ensures { self.new.failures ≡ self.old.failures }
    {
        let old = fs::metadata(self.rt, source)?;
        let current = self.take_current(name)?;
        let copied = current.file.set_permissions(old.permissions());
        self.current = Some(current);
        copied
    }

    fn try_copy_times(&mut self, source: &str, name: &str) -> io::Result<()>
        ensures { self.new.failures ≡ self.old.failures }
    {
        let old = fs::metadata(self.rt, source)?;
        let times = FileTimes::new()
            .set_accessed(old.accessed()?)
            .set_modified(old.modified()?);
        let current = self.take_current(name)?;
        let copied = current.file.set_times(times);
        self.current = Some(current);
        copied
    }

    fn try_sync(&mut self, name: &str) -> io::Result<()>
        ensures { self.new.failures ≡ self.old.failures }
    {
        let current = self.take_current(name)?;
        let synced = current.file.sync_all();
        self.current = Some(current);
        synced
    }

    fn stamp(&self, name: &str) -> io::Result<Stamp> {
        let found = fs::symlink_metadata(self.rt, name)?;
        Ok(Stamp {
            device: found.dev(),
            inode: found.ino(),
            length: found.size(),
            modified: (found.mtime(), found.mtime_nsec()),
            changed: (found.ctime(), found.ctime_nsec()),
        })
    }

    // Reads a file, and notes what it was before: so a change meanwhile is seen too.
    fn try_read(&mut self, name: &str) -> io::Result<Vec<u8>>
        ensures { self.new.failures ≡ self.old.failures }
    {
        let stamp = self.stamp(name)?;
        let bytes = fs::read(self.rt, name)?;
        let name = String::from_str(self.rt.alloc(), name)?;
        self.known = Some(Known { name, stamp });
        Ok(bytes)
    }

    // Whether a file was read here and is not what it was then.
    fn is_changed(&self, name: &str) -> io::Result<bool> {
        match &self.known {
            Some(known) if known.name.as_str() == name => Ok(known.stamp != self.stamp(name)?),
            _ => Ok(false),
        }
    }

    // Refuses a file that was read here and is not what it was then.
    fn refuse_changed(&self, name: &str) -> io::Result<()> {
        if self.is_changed(name)? {
            return Err(io::Error::new(
                ErrorKind::Other,
                "another program has changed it since it was read; nothing was changed",
            ));
        }
        Ok(())
    }

    // Gives a file one more name if that is free, unless it is not what was read.
    fn try_link_known(&mut self, source: &str, name: &str) -> io::Result<bool>
        ensures { self.new.failures ≡ self.old.failures }
    {
        self.refuse_changed(source)?;
        let linked = self.try_link(source, name)?;
        self.note_link(source);
        Ok(linked)
    }

    // Notes that a file has one more name, which counts as a change of its attributes, and as none
    // of its bytes.
    fn note_link(&mut self, source: &str)
        ensures { self.new.failures ≡ self.old.failures }
    {
        let Some(mut known) = self.known.take() else {
            return;
        };
        if known.name.as_str() == source {
            match self.stamp(source) {
                Ok(stamp) => known.stamp.changed = stamp.changed,
                Err(_gone) => return,
            }
        }
        self.known = Some(known);
    }

    // Gives a file another name, unless the file that has it is not what was read.
    fn try_rename(&mut self, source: &str, name: &str) -> io::Result<()>
        ensures { self.new.failures ≡ self.old.failures }
    {
        self.refuse_changed(name)?;
        fs::rename(self.rt, source, name)?;
        self.known = None;
        Ok(())
    }

    fn try_is_free(&self, name: &str) -> io::Result<bool> {
        match fs::symlink_metadata(self.rt, name) {
            Ok(_) => Ok(false),
            Err(error) if error.kind() == ErrorKind::NotFound => Ok(true),
            Err(error) => Err(error),
        }
    }

    // What has a name itself, if something does.
    fn try_look(&self, name: &str) -> io::Result<Option<Metadata>> {
        match fs::symlink_metadata(self.rt, name) {
            Ok(found) => Ok(Some(found)),
            Err(error) if error.kind() == ErrorKind::NotFound => Ok(None),
            Err(error) => Err(error),
        }
    }

    // Whether two names are those of one file. Where a folder is a link, two paths can lead to one
    // name, which the paths without links tell.
    fn try_is_one_file(&self, name: &str, other: &str) -> io::Result<bool>
        ensures apart { IfOk result (λ one. IsTrue one → name.now ≢ other.now) }
    {
        if name == other {
            return Ok(false);
        }
        let (Some(a), Some(b)) = (self.try_look(name)?, self.try_look(other)?) else {
            return Ok(false);
        };
        let is_one = a.is_file() && a.dev() == b.dev() && a.ino() == b.ino();
        if !is_one || a.nlink() < 2 {
            return Ok(false);
        }
        let path = fs::canonicalize(self.rt, name)?;
        Ok(path.as_path() != fs::canonicalize(self.rt, other)?.as_path())
    }

    fn try_link(&self, source: &str, name: &str) -> io::Result<bool> {
        match fs::hard_link(self.rt, source, name) {
            Ok(()) => Ok(true),
            Err(error) if error.kind() == ErrorKind::AlreadyExists => Ok(false),
            Err(error) => Err(error),
        }
    }

    fn try_settle(&self, name: &str) -> io::Result<()> {
        File::open(self.rt, Path::new(folder_of(name)))?.sync_all()
    }
}

impl<'r> FileSystem for HostFiles<'r> {
    ghost states = { λ _. [] };

    ghost failures = { λ f. f.failures };

    fn read(&mut self, _alloc: Global, name: &str) -> io::Result<Vec<u8>> {
        let result = self.try_read(name);
        self.count(result.is_err());
        result
    }

    fn is_free(&mut self, name: &str) -> io::Result<bool> {
        let result = self.try_is_free(name);
        self.count(result.is_err());
        result
    }

    fn is_one_file(&mut self, name: &str, other: &str) -> io::Result<bool> {
        let result = self.try_is_one_file(name, other);
        self.count(result.is_err());
        result
    }

    fn create(&mut self, name: &str, mode: u32) -> io::Result<bool> {
        let result = self.try_create(name, mode);
        self.count(result.is_err());
        result
    }

    fn append(&mut self, name: &str, bytes: &[u8]) -> io::Result<usize> {
        let result = self.try_append(name, bytes);
        self.count(result.is_err());
        result
    }

    fn copy_owner(&mut self, source: &str, name: &str) -> io::Result<()> {
        let result = self.try_copy_owner(source, name);
        self.count(result.is_err());
        result
    }

    fn copy_mode(&mut self, source: &str, name: &str) -> io::Result<()> {
        let result = self.try_copy_mode(source, name);
        self.count(result.is_err());
        result
    }

    fn copy_times(&mut self, source: &str, name: &str) -> io::Result<()> {
        let result = self.try_copy_times(source, name);
        self.count(result.is_err());
        result
    }

    fn sync(&mut self, name: &str) -> io::Result<()> {
        let result = self.try_sync(name);
        self.count(result.is_err());
        result
    }

    fn link(&mut self, source: &str, name: &str) -> io::Result<bool> {
        let result = self.try_link_known(source, name);
        self.count(result.is_err());
        result
    }

    fn rename(&mut self, source: &str, name: &str) -> io::Result<()> {
        let result = self.try_rename(source, name);
        self.count(result.is_err());
        result
    }

    fn remove(&mut self, name: &str) -> io::Result<()> {
        let result = fs::remove_file(self.rt, name);
        self.count(result.is_err());
        result
    }

    fn settle(&mut self, name: &str) -> io::Result<()> {
        let result = self.try_settle(name);
        self.count(result.is_err());
        result
    }
}
