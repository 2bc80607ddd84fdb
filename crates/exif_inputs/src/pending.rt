//! The files that are named, and those in folders, one after the other.

ghost use Rattle.std.specs.Prelude.{◌≡◌, ◌≢◌, ◌++◌, ℕ, Bool, List, IfErr, IfOk, IfSome, None, OnOk, Some, length, map, option_map, reverse, string_bytes, false};
ghost use Rattle.exif_decisions.specs.Names.{names_listed};
ghost use Rattle.exif_decisions.specs.Paths.{name_of};
ghost use Rattle.exif_decisions.specs.Rules.{look_for};
ghost use Rattle.exif_decisions.specs.Tallies.{no_counts};
ghost use Rattle.exif_decisions.specs.declared.rules.Action.TheVariants.{Enter};
ghost use Rattle.exif_inputs.specs.Pending.{AreAdded, IsActed, IsFollowed, IsLookedAt, IsOfKind, counted_action, entered, listed_path, named, next_file, paths_in, the_failed, turned, waiting_of, with_names};

use exif_decisions::{
    Action, Counts, Kind, Look, NotRead, action_of, is_inside, kind_of, look_of, name_of,
    names_listed, slash_after,
};
use std::alloc::{AllocError, Global};
use std::fs::{self, Metadata};
use std::io::{self, ErrorKind, Read};
use std::rt::Files;

// How many bytes of names are read at a time.
const BLOCK: usize = 8192;

/// The files that were not processed yet.
#[derive(Drop)]
pub struct Pending {
    /// Files and folders. The last is the next.
    pub waiting: Vec<Waiting>,
    /// Whether folders that are named are entered.
    pub recursive: bool,
    /// What was skipped so far.
    pub counts: Counts,
    /// Temporary files that were found since this was looked at last.
    pub temporary: Vec<String>,
}

/// A file or a folder that waits.
#[derive(Drop)]
pub struct Waiting {
    /// Its path.
    pub path: String,
    /// Whether it was named; else it was found in a folder.
    pub is_named: bool,
}

/// What is processed next.
#[derive(Drop)]
pub enum Next {
    /// Standard input.
    Input,
    /// A file that was named.
    Named(String),
    /// A file that was found in a folder, and may be a picture.
    Found(String),
    /// A file that was found in a folder and is not read, but goes with the pictures beside it.
    Beside(String, NotRead),
    /// A name that can't be followed.
    Failed(String, io::Error),
}

impl Pending {
    /// The files of these names.
    pub fn new(alloc: Global, paths: &[&str], recursive: bool) -> Result<Pending, AllocError>
        ensures waiting { IfOk result (λ pending. map waiting_of pending.waiting.items
            ≡ reverse (map (λ path. named path.now) paths.now)) }
        ensures recursive { IfOk result (λ pending. pending.recursive ≡ recursive) }
        ensures counts { IfOk result (λ pending. pending.counts ≡ no_counts) }
        ensures temporary { IfOk result (λ pending. length pending.temporary.items ≡ 0) }
    {
        let mut waiting = Vec::new(alloc);
        for path in paths {
            let path = String::from_str(alloc, path)?;
            waiting.push(Waiting {
                path,
                is_named: true,
            })?;
        }
        waiting.reverse();
        Ok(Pending {
            waiting,
            recursive,
            counts: Counts::new(),
            temporary: Vec::new(alloc),
        })
    }

    /// Adds the names that a reader holds, each ended by a zero byte; the last may lack it. After
    /// an error some of them may wait.
    pub fn add_names<R: Read + Drop>(&mut self, alloc: Global, mut reader: R) -> io::Result<()>
        ensures known { OnOk result (IfSome (R.remaining reader) (λ names.
            map waiting_of self.new.waiting.items
            ≡ with_names names (map waiting_of self.old.waiting.items))) }
        ensures waiting { OnOk result ((names : List ℕ) × (map waiting_of self.new.waiting.items
            ≡ with_names names (map waiting_of self.old.waiting.items))) }
        ensures counts { self.new.counts ≡ self.old.counts }
        ensures recursive { self.new.recursive ≡ self.old.recursive }
    {
        let mut names = Vec::new(alloc);
        reader.read_to_end(&mut names)?;
        self.add_listed(alloc, names.as_slice())?;
        Ok(())
    }

    // Adds names that are each ended by a zero byte, before those that wait.
    fn add_listed(&mut self, alloc: Global, names: &[u8]) -> Result<(), AllocError>
        ensures waiting { OnOk result (map waiting_of self.new.waiting.items
            ≡ with_names names.now (map waiting_of self.old.waiting.items)) }
        ensures partly { (left : List (List ℕ × Bool)) × AreAdded
            (map waiting_of self.old.waiting.items) (map waiting_of self.new.waiting.items)
            left (reverse (map named (names_listed names.now))) }
        ensures counts { self.new.counts ≡ self.old.counts }
        ensures recursive { self.new.recursive ≡ self.old.recursive }
    {
        let paths = names_listed(alloc, names)?;
        self.add_all(paths, true)
    }

    // Has files of these paths wait, before the others: the first of them is the next.
    #[tactic(auto, using(crate::proofs::PendingLemmas::all_added))]
    fn add_all(&mut self, mut paths: Vec<String>, is_named: bool) -> Result<(), AllocError>
        ensures waiting { OnOk result (map waiting_of self.new.waiting.items
            ≡ map waiting_of self.old.waiting.items ++ turned is_named paths.items) }
        ensures partly { (left : List (List ℕ × Bool)) × AreAdded
            (map waiting_of self.old.waiting.items) (map waiting_of self.new.waiting.items)
            left (turned is_named paths.items) }
        ensures counts { self.new.counts ≡ self.old.counts }
        ensures recursive { self.new.recursive ≡ self.old.recursive }
    {
        while let Some(path) = paths.pop() {
            self.waiting.push(Waiting { path, is_named })?;
        }
        Ok(())
    }

    /// How many files and folders were not processed yet.
    pub fn len(&self) -> usize
        ensures { result ≡ length self.now.waiting.items }
    {
        self.waiting.len()
    }

    /// The next one; none only where nothing waits.
    pub fn next(&mut self, rt: &HostRuntime) -> Result<Option<Next>, AllocError>
        ensures none { IfOk result (λ next. next ≡ None → length self.new.waiting.items ≡ 0) }
        ensures recursive { self.new.recursive ≡ self.old.recursive }
    {
        for _ in 0..u64::MAX {
            let Some(waiting) = self.waiting.pop() else {
                return Ok(None);
            };
            if let Some(next) = self.follow(rt, waiting)? {
                return Ok(Some(next));
            }
        }
        Err(AllocError)
    }

    // What a name leads to: nothing where it is a folder, whose files wait then, or is skipped.
    fn follow(&mut self, rt: &HostRuntime, waiting: Waiting) -> Result<Option<Next>, AllocError>
        ensures next { let path = string_bytes waiting.path in
            IfOk result (λ next. IsFollowed (look_for path waiting.is_named) path waiting.is_named
            self.old.recursive self.old.counts self.new.counts (option_map next_file next)) }
        ensures recursive { self.new.recursive ≡ self.old.recursive }
    {
        let Waiting { path, is_named } = waiting;
        match look_of(path.as_str(), is_named) {
            Look::Input => Ok(Some(Next::Input)),
            Look::Unreadable => {
                let cause = io::Error::new(
                    ErrorKind::InvalidFilename,
                    "the name is not valid UTF-8",
                );
                Ok(Some(Next::Failed(path, cause)))
            }
            Look::Path => {
                // the links of a name that was given are followed
                let found = if is_named {
                    fs::metadata(rt, path.as_str())
                } else {
                    fs::symlink_metadata(rt, path.as_str())
                };
                self.act_by(rt, kind_in(found), path, is_named)
            }
        }
    }

    // What is done with a path of a kind, or with one that can't be followed.
    fn act_by(
        &mut self,
        rt: &HostRuntime,
        kind: io::Result<Kind>,
        path: String,
        is_named: bool,
    ) -> Result<Option<Next>, AllocError>
        ensures kind { IfOk kind (λ kind. IfOk result (λ next.
            IsOfKind (string_bytes path) is_named self.old.recursive self.old.counts
            self.new.counts (option_map next_file next) kind)) }
        ensures failed { IfErr kind (λ cause. IfOk result (λ next.
            option_map next_file next ≡ Some (the_failed (string_bytes path)))) }
        ensures kept { IfErr kind (λ cause. self.new ≡ self.old) }
        ensures looked { IfOk result (λ next. IsLookedAt (string_bytes path) is_named
            self.old.recursive self.old.counts self.new.counts (option_map next_file next)) }
        ensures recursive { self.new.recursive ≡ self.old.recursive }
    {
        match kind {
            Ok(kind) => {
                let action = action_of(kind, is_named, name_of(path.as_str()), self.recursive);
                self.act(rt, action, path)
            }
            Err(cause) => Ok(Some(Next::Failed(path, cause))),
        }
    }

    // What is done with a path. The other files wait still.
    fn act(
        &mut self,
        rt: &HostRuntime,
        action: Action,
        path: String,
    ) -> Result<Option<Next>, AllocError>
        ensures next { IfOk result (λ next.
            IsActed action (string_bytes path) (option_map next_file next)) }
        ensures counts { self.new.counts ≡ counted_action action self.old.counts }
        ensures recursive { self.new.recursive ≡ self.old.recursive }
        ensures waiting { action ≢ Enter → self.new.waiting ≡ self.old.waiting }
    {
        match action {
            Action::Process => Ok(Some(Next::Named(path))),
            Action::ProcessPicture => Ok(Some(Next::Found(path))),
            Action::Enter => {
                let names = names_in(rt, path.as_str());
                self.enter(path, names)
            }
            Action::RefuseFolder => {
                let cause = io::Error::new(ErrorKind::IsADirectory, "is a folder; use -r");
                Ok(Some(Next::Failed(path, cause)))
            }
            Action::SkipLink => {
                self.counts.skip_link();
                Ok(None)
            }
            Action::SkipOwn => {
                self.counts.skip_own();
                Ok(None)
            }
            Action::SkipTemporary => {
                self.counts.skip_own();
                self.temporary.push(path)?;
                Ok(None)
            }
            Action::Ignore => Ok(None),
        }
    }

    // Has the files of a folder wait, in their order, before the others, or tells why it can't be
    // read.
    fn enter(
        &mut self,
        path: String,
        names: io::Result<Vec<String>>,
    ) -> Result<Option<Next>, AllocError>
        ensures next { IfOk result (λ next. option_map next_file next
            ≡ entered (string_bytes path) names) }
        ensures waiting { IfOk names (λ names. IfOk result (λ next.
            map waiting_of self.new.waiting.items
            ≡ map waiting_of self.old.waiting.items ++ turned false names.items)) }
        ensures kept { IfErr names (λ cause. self.new ≡ self.old) }
        ensures counts { self.new.counts ≡ self.old.counts }
        ensures recursive { self.new.recursive ≡ self.old.recursive }
    {
        match names {
            Ok(names) => {
                self.add_all(names, false)?;
                Ok(None)
            }
            Err(cause) => Ok(Some(Next::Failed(path, cause))),
        }
    }
}

// The kind of what was found.
fn kind_in(found: io::Result<Metadata>) -> io::Result<Kind> {
    let found = found?;
    Ok(kind_of(found.is_dir(), found.is_file(), found.is_symlink()))
}

// The paths of what is in a folder, sorted. A name that is no UTF-8 is as `readable` writes it.
fn names_in(rt: &HostRuntime, path: &str) -> io::Result<Vec<String>> {
    let alloc = rt.alloc();
    // a slash has the system follow a link
    let slash = slash_after(path);
    let folder = format!(in alloc; "{path}{slash}")?;
    let listing = read_blocks(alloc, rt.open_dir(folder.as_str())?)?;
    let mut paths = paths_in(alloc, folder.as_str(), listing.as_slice())?;
    paths.sort()?;
    Ok(paths)
}

// The paths of what a listing of a folder names, in its order.
fn paths_in(alloc: Global, folder: &str, listing: &[u8]) -> Result<Vec<String>, AllocError>
    ensures { IfOk result (λ paths. map string_bytes paths.items
        ≡ paths_in folder.now listing.now) }
{
    let names = names_listed(alloc, listing)?;
    let mut paths = Vec::new(alloc);
    for name in names.as_slice() {
        push_path(alloc, folder, name.as_str(), &mut paths)?;
    }
    Ok(paths)
}

// Adds the path of a name, unless it is that of the folder itself or of the one above.
fn push_path(
    alloc: Global,
    folder: &str,
    name: &str,
    paths: &mut Vec<String>,
) -> Result<(), AllocError>
    ensures { OnOk result (map string_bytes paths.new.items
        ≡ map string_bytes paths.old.items ++ listed_path folder.now name.now) }
{
    if is_inside(name.as_bytes()) {
        paths.push(format!(in alloc; "{folder}{name}")?)?;
    }
    Ok(())
}

// All the bytes that a reader holds. A listing gives whole names alone, hence each read has space
// for one.
#[tactic(auto, using(crate::proofs::PendingLemmas::none_read, crate::proofs::PendingLemmas::one_read, crate::proofs::PendingLemmas::all_read))]
fn read_blocks<R: Read + Drop>(alloc: Global, mut reader: R) -> io::Result<Vec<u8>>
    ensures { IfOk result (λ bytes. IfSome (R.remaining reader) (λ all. bytes.items ≡ all)) }
{
    let mut bytes = Vec::new(alloc);
    let mut block = [0u8; BLOCK];
    for _ in 0..u64::MAX {
        let n = reader.read(&mut block)?;
        if n == 0 {
            return Ok(bytes);
        }
        bytes.extend_from_slice(&block[..n])?;
    }
    Err(io::Error::from(ErrorKind::OutOfMemory))
}
