//! A file system in memory, for tests: one of the calls that come fails.

ghost use Rattle.std.specs.Prelude.{◌≡◌, ◌≢◌, ◌↔◌, IfOk, IsTrue, OnOk, None, Some};
ghost use Rattle.exif_files.specs.States.{Now, Holds};
ghost use Rattle.exif_files.specs.Steps.{Creates, Appends, Copies, HasOwner, HasMode, HasTimes, Syncs, Links, Renames, Removes, Settles, MovesIfFree, count_after};
ghost use Rattle.exif_test_support.specs.FromMemory.{entry, entry_if, looked, looked_all, states_of, Puts, PutsTwo, Tries, TriesIfFree};

use exif_files::FileSystem;
use std::alloc::{AllocError, Global};
use std::io::{self, ErrorKind};

/// A file: its bytes, who may use it, its owner, and its times as one number.
#[derive(Drop)]
pub struct Stored {
    /// Its bytes.
    pub bytes: Vec<u8>,
    /// Who may use it.
    pub mode: u32,
    /// Its owner.
    pub owner: u32,
    /// Its times.
    pub times: u64,
}

impl Stored {
    fn copy(&self, alloc: Global) -> Result<Stored, AllocError>
        ensures { IfOk result (λ copy. entry copy ≡ entry self.now) }
    {
        let bytes = self.bytes.to_vec(alloc)?;
        Ok(Stored {
            bytes,
            mode: self.mode,
            owner: self.owner,
            times: self.times,
        })
    }

    // Whether two files have the same bytes, mode, owner and times.
    fn is_alike(&self, other: &Stored) -> bool
        ensures { IsTrue result → entry self.now ≡ entry other.now }
    {
        self.bytes.as_slice() == other.bytes.as_slice()
            && self.mode == other.mode
            && self.owner == other.owner
            && self.times == other.times
    }
}

/// What a name has from then on.
#[derive(Drop)]
pub struct Put {
    name: Vec<u8>,
    file: Option<Stored>,
}

/// What a call changed, in one step.
#[derive(Drop)]
pub struct Step {
    puts: Vec<Put>,
}

/// A file system in memory. It keeps each step that it made, and the disk has each at once.
#[derive(Drop)]
pub struct MemoryFiles {
    alloc: Global,
    steps: Vec<Step>,
    // how many calls come before the one that fails
    left: u64,
    // whether a file can have two names
    links: bool,
    // the owner of new files
    owner: u32,
    failures: u64,
}

// What puts make of what a name had.
fn look(
    alloc: Global,
    found: Option<Stored>,
    puts: &[Put],
    name: &[u8],
) -> Result<Option<Stored>, AllocError>
    ensures { IfOk result (λ file. entry_if file ≡ looked (entry_if found) puts.now name.now) }
{
    let mut found = found;
    for put in puts.iter() {
        if name == put.name.as_slice() {
            found = match &put.file {
                None => None,
                Some(file) => Some(file.copy(alloc)?),
            };
        }
    }
    Ok(found)
}

// What a name has after the steps.
fn look_through(alloc: Global, steps: &[Step], name: &[u8]) -> Result<Option<Stored>, AllocError>
    ensures { IfOk result (λ file. entry_if file ≡ looked_all None steps.now name.now) }
{
    let mut found = None;
    for step in steps.iter() {
        found = look(alloc, found, step.puts.as_slice(), name)?;
    }
    Ok(found)
}

impl MemoryFiles {
    /// No file, and no call that fails.
    pub fn new(alloc: Global) -> MemoryFiles {
        MemoryFiles {
            alloc,
            steps: Vec::new(alloc),
            left: u64::MAX,
            links: true,
            owner: 0,
            failures: 0,
        }
    }

    /// Puts a file under a name, as others do.
    pub fn insert(&mut self, name: &str, file: Stored) -> io::Result<()> {
        self.put(name, Some(file))
    }

    /// Makes new files those of an owner.
    pub fn own_by(&mut self, owner: u32)
        ensures { self.new.steps ≡ self.old.steps }
    {
        self.owner = owner;
    }

    /// Lets no file have two names, as the file systems of memory cards do.
    pub fn lack_links(&mut self)
        ensures { self.new.steps ≡ self.old.steps }
    {
        self.links = false;
    }

    /// Lets so many calls succeed, and the next one fail.
    pub fn fail_after(&mut self, left: u64)
        ensures { self.new.steps ≡ self.old.steps }
    {
        self.left = left;
    }

    /// What a name has.
    pub fn find(&self, name: &str) -> io::Result<Option<Stored>>
        ensures { IfOk result (λ file. Now (states_of self.now.steps.items)
            (λ s. s.at name.now ≡ entry_if file)) }
    {
        Ok(look_through(self.alloc, self.steps.as_slice(), name.as_bytes())?)
    }

    // The file of a name.
    fn get(&self, name: &str) -> io::Result<Stored>
        ensures { IfOk result (λ file. Now (states_of self.now.steps.items)
            (λ s. s.at name.now ≡ Some (entry file))) }
    {
        match self.find(name)? {
            Some(file) => Ok(file),
            None => Err(io::Error::from(ErrorKind::NotFound)),
        }
    }

    // Whether nothing has the name.
    fn is_absent(&self, name: &str) -> io::Result<bool>
        ensures { IfOk result (λ free. Now (states_of self.now.steps.items)
            (λ s. IsTrue free ↔ (s.at name.now ≡ None))) }
    {
        Ok(self.find(name)?.is_none())
    }

    // Whether this call is not the one that fails.
    fn begin(&mut self) -> io::Result<()>
        ensures same { self.new.steps ≡ self.old.steps }
        ensures count { self.new.failures ≡ self.old.failures }
    {
        if self.left == 0 {
            self.left = u64::MAX;
            return Err(io::Error::from(ErrorKind::Other));
        }
        self.left -= 1;
        Ok(())
    }

    // Counts a call where it failed.
    fn count(&mut self, failed: bool)
        ensures count { self.new.failures ≡ count_after failed self.old.failures }
        ensures same { self.new.steps ≡ self.old.steps }
    {
        if failed {
            self.failures = self.failures.saturating_add(1);
        }
    }

    // Puts a file, or nothing, under a name.
    fn put(&mut self, name: &str, file: Option<Stored>) -> io::Result<()>
        ensures { Tries (Puts name.now (entry_if file))
            self.old.steps.items self.new.steps.items self.old.failures self.new.failures result }
    {
        let mut puts = Vec::new(self.alloc);
        let name = name.as_bytes().to_vec(self.alloc)?;
        puts.push(Put { name, file })?;
        self.steps.push(Step { puts })?;
        Ok(())
    }

    // Puts a file under one name, and nothing under another, in one step.
    fn put_two(&mut self, gone: &str, name: &str, file: Stored) -> io::Result<()>
        requires { gone.now ≢ name.now }
        ensures { Tries (PutsTwo gone.now name.now (entry file))
            self.old.steps.items self.new.steps.items self.old.failures self.new.failures result }
    {
        let mut puts = Vec::new(self.alloc);
        let gone = gone.as_bytes().to_vec(self.alloc)?;
        puts.push(Put {
            name: gone,
            file: None,
        })?;
        let name = name.as_bytes().to_vec(self.alloc)?;
        puts.push(Put {
            name,
            file: Some(file),
        })?;
        self.steps.push(Step { puts })?;
        Ok(())
    }

    fn try_create(&mut self, name: &str, mode: u32) -> io::Result<bool>
        ensures { TriesIfFree name.now (Creates name.now mode)
            self.old.steps.items self.new.steps.items self.old.failures self.new.failures result }
    {
        self.begin()?;
        if !self.is_absent(name)? {
            return Ok(false);
        }
        let bytes = Vec::new(self.alloc);
        let file = Stored {
            bytes,
            mode,
            owner: self.owner,
            times: self.steps.len() as u64,
        };
        self.put(name, Some(file))?;
        Ok(true)
    }

    fn try_copy_owner(&mut self, source: &str, name: &str) -> io::Result<()>
        ensures { Tries (Copies HasOwner source.now name.now)
            self.old.steps.items self.new.steps.items self.old.failures self.new.failures result }
    {
        self.begin()?;
        let old = self.get(source)?;
        let mut file = self.get(name)?;
        file.owner = old.owner;
        self.put(name, Some(file))
    }

    fn try_copy_mode(&mut self, source: &str, name: &str) -> io::Result<()>
        ensures { Tries (Copies HasMode source.now name.now)
            self.old.steps.items self.new.steps.items self.old.failures self.new.failures result }
    {
        self.begin()?;
        let old = self.get(source)?;
        let mut file = self.get(name)?;
        file.mode = old.mode;
        self.put(name, Some(file))
    }

    fn try_copy_times(&mut self, source: &str, name: &str) -> io::Result<()>
        ensures { Tries (Copies HasTimes source.now name.now)
            self.old.steps.items self.new.steps.items self.old.failures self.new.failures result }
    {
        self.begin()?;
        let old = self.get(source)?;
        let mut file = self.get(name)?;
        file.times = old.times;
        self.put(name, Some(file))
    }

    fn try_sync(&mut self, name: &str) -> io::Result<()>
        ensures { Tries (Syncs name.now)
            self.old.steps.items self.new.steps.items self.old.failures self.new.failures result }
    {
        self.begin()?;
        let file = self.get(name)?;
        self.put(name, Some(file))
    }

    fn try_link(&mut self, source: &str, name: &str) -> io::Result<bool>
        ensures { TriesIfFree name.now (Links source.now name.now)
            self.old.steps.items self.new.steps.items self.old.failures self.new.failures result }
    {
        self.begin()?;
        if !self.links {
            return Err(io::Error::from(ErrorKind::PermissionDenied));
        }
        if !self.is_absent(name)? {
            return Ok(false);
        }
        let file = self.get(source)?;
        self.put(name, Some(file))?;
        Ok(true)
    }

    fn try_rename(&mut self, source: &str, name: &str) -> io::Result<()>
        requires { source.now ≢ name.now }
        ensures { Tries (Renames source.now name.now)
            self.old.steps.items self.new.steps.items self.old.failures self.new.failures result }
    {
        self.begin()?;
        let file = self.get(source)?;
        self.put_two(source, name, file)
    }

    fn try_remove(&mut self, name: &str) -> io::Result<()>
        ensures { Tries (Removes name.now)
            self.old.steps.items self.new.steps.items self.old.failures self.new.failures result }
    {
        self.begin()?;
        let _file = self.get(name)?;
        self.put(name, None)
    }

    fn try_settle(&mut self, name: &str) -> io::Result<()>
        ensures { Tries (Settles name.now)
            self.old.steps.items self.new.steps.items self.old.failures self.new.failures result }
    {
        self.begin()?;
        let _name = name;
        let puts = Vec::new(self.alloc);
        self.steps.push(Step { puts })?;
        Ok(())
    }

    fn try_is_free(&mut self, name: &str) -> io::Result<bool>
        ensures free { IfOk result (λ free. Now (states_of self.old.steps.items)
            (λ s. IsTrue free ↔ (s.at name.now ≡ None))) }
        ensures same { self.new.steps ≡ self.old.steps }
        ensures count { self.new.failures ≡ self.old.failures }
    {
        self.begin()?;
        self.is_absent(name)
    }

    // Whether two names have files that nothing tells apart: here a name that a file gets besides
    // its own has a copy of it.
    fn try_is_one_file(&mut self, name: &str, other: &str) -> io::Result<bool>
        ensures one { IfOk result (λ one. IsTrue one → Now (states_of self.old.steps.items)
            (λ s. (s.at name.now ≡ s.at other.now) × (s.at other.now ≢ None))) }
        ensures apart { IfOk result (λ one. IsTrue one → name.now ≢ other.now) }
        ensures same { self.new.steps ≡ self.old.steps }
        ensures count { self.new.failures ≡ self.old.failures }
    {
        self.begin()?;
        if name == other {
            return Ok(false);
        }
        let (Some(a), Some(b)) = (self.find(name)?, self.find(other)?) else {
            return Ok(false);
        };
        Ok(a.is_alike(&b))
    }

    fn try_read(&mut self, alloc: Global, name: &str) -> io::Result<Vec<u8>>
        ensures bytes { IfOk result (λ bytes. Now (states_of self.old.steps.items)
            (λ s. Holds s name.now (λ f. f.bytes ≡ bytes.items))) }
        ensures same { self.new.steps ≡ self.old.steps }
        ensures count { self.new.failures ≡ self.old.failures }
    {
        self.begin()?;
        let file = self.get(name)?;
        Ok(file.bytes.to_vec(alloc)?)
    }

    fn try_append(&mut self, name: &str, bytes: &[u8]) -> io::Result<()>
        ensures { Tries (Appends name.now bytes.now)
            self.old.steps.items self.new.steps.items self.old.failures self.new.failures result }
    {
        self.begin()?;
        let mut file = self.get(name)?;
        file.bytes.extend_from_slice(bytes)?;
        self.put(name, Some(file))
    }
}

impl FileSystem for MemoryFiles {
    ghost states = { λ m. states_of m.steps.items };

    ghost failures = { λ m. m.failures };

    fn read(&mut self, alloc: Global, name: &str) -> io::Result<Vec<u8>> {
        let result = self.try_read(alloc, name);
        self.count(result.is_err());
        result
    }

    fn is_free(&mut self, name: &str) -> io::Result<bool> {
        let result = self.try_is_free(name);
        self.count(result.is_err());
        result
    }

    fn is_one_file(&mut self, name: &str, other: &str) -> io::Result<bool> {
        let result = self.try_is_one_file(name, other);
        self.count(result.is_err());
        result
    }

    fn create(&mut self, name: &str, mode: u32) -> io::Result<bool> {
        let result = self.try_create(name, mode);
        self.count(result.is_err());
        result
    }

    fn append(&mut self, name: &str, bytes: &[u8]) -> io::Result<usize> {
        let result = self.try_append(name, bytes);
        self.count(result.is_err());
        match result {
            Ok(()) => Ok(bytes.len()),
            Err(error) => Err(error),
        }
    }

    fn copy_owner(&mut self, source: &str, name: &str) -> io::Result<()> {
        let result = self.try_copy_owner(source, name);
        self.count(result.is_err());
        result
    }

    fn copy_mode(&mut self, source: &str, name: &str) -> io::Result<()> {
        let result = self.try_copy_mode(source, name);
        self.count(result.is_err());
        result
    }

    fn copy_times(&mut self, source: &str, name: &str) -> io::Result<()> {
        let result = self.try_copy_times(source, name);
        self.count(result.is_err());
        result
    }

    fn sync(&mut self, name: &str) -> io::Result<()> {
        let result = self.try_sync(name);
        self.count(result.is_err());
        result
    }

    fn link(&mut self, source: &str, name: &str) -> io::Result<bool> {
        let result = self.try_link(source, name);
        self.count(result.is_err());
        result
    }

    fn rename(&mut self, source: &str, name: &str) -> io::Result<()> {
        let result = self.try_rename(source, name);
        self.count(result.is_err());
        result
    }

    fn remove(&mut self, name: &str) -> io::Result<()> {
        let result = self.try_remove(name);
        self.count(result.is_err());
        result
    }

    fn settle(&mut self, name: &str) -> io::Result<()> {
        let result = self.try_settle(name);
        self.count(result.is_err());
        result
    }
}
