//! The calls of a file system by which files are replaced, and what each does.

ghost use Rattle.std.specs.Prelude.{◌≡◌, ◌≢◌, ◌≤◌, ◌<◌, ◌↔◌, ℕ, List, None, IfOk, IsTrue, OnErr, is_err, length, take};
ghost use Rattle.exif_files.specs.States.{State, Now, Holds};
ghost use Rattle.exif_files.specs.NewNames.{IsThere};
ghost use Rattle.exif_files.specs.Steps.{Does, DoesIfFree, Creates, Appends, Copies, HasOwner, HasMode, HasTimes, Syncs, Links, Renames, Removes, Settles, Moves, count_after};

use std::alloc::Global;
use std::io;

/// A file system. A name is the path of a file of which no part is a link, `.` or `..`, so that two
/// names are those of two files. Nobody else writes there.
///
/// A call that failed has left all as it was. Killed between two calls, a process leaves the state
/// that the last call made. A loss of power leaves under each name what it had in one of the states
/// since the last in which the disk had the name; of a file that was not kept then, any bytes.
pub trait FileSystem {
    /// The states that it has been in, the last first; none where they are not known.
    ghost states: { Self → List State };

    /// How many calls failed, up to 2^64 - 1.
    ghost failures: { Self → ℕ };

    /// The bytes of a file.
    fn read(&mut self, alloc: Global, name: &str) -> io::Result<Vec<u8>>
        ensures bytes { IfOk result (λ bytes. Now (states self.old)
            (λ s. Holds s name.now (λ f. f.bytes ≡ bytes.items))) }
        ensures same { states self.new ≡ states self.old }
        ensures count { failures self.new ≡ count_after (is_err result) (failures self.old) };

    /// Whether nothing has the name, not even a link that leads nowhere.
    fn is_free(&mut self, name: &str) -> io::Result<bool>
        ensures free { IfOk result (λ free. Now (states self.old)
            (λ s. IsTrue free ↔ (s.at name.now ≡ None))) }
        ensures same { states self.new ≡ states self.old }
        ensures count { failures self.new ≡ count_after (is_err result) (failures self.old) };

    /// Whether two names are those of one file, which has both. Two ways to write one name are not,
    /// and neither are links to a name.
    fn is_one_file(&mut self, name: &str, other: &str) -> io::Result<bool>
        ensures one { IfOk result (λ one. IsTrue one → Now (states self.old)
            (λ s. (s.at name.now ≡ s.at other.now) × IsThere other.now s)) }
        ensures apart { IfOk result (λ one. IsTrue one → name.now ≢ other.now) }
        ensures same { states self.new ≡ states self.old }
        ensures count { failures self.new ≡ count_after (is_err result) (failures self.old) };

    /// Makes a file without bytes if the name is free, and answers whether it was. Those may use
    /// the file whom the mode names, but for whom the system's mask leaves out.
    fn create(&mut self, name: &str, mode: u32) -> io::Result<bool>
        ensures does { DoesIfFree name.now (Creates name.now mode) (states self.old)
            (states self.new) (failures self.old) (failures self.new) result };

    /// Puts a front of the bytes at the end of a file that was created and has no other name.
    /// Answers how many; of some bytes, one at least.
    fn append(&mut self, name: &str, bytes: &[u8]) -> io::Result<usize>
        ensures bound { IfOk result (λ n. n ≤ length bytes.now) }
        ensures some { 0 < length bytes.now → IfOk result (λ n. 0 < n) }
        ensures done { IfOk result (λ n. Moves (Appends name.now (take n bytes.now))
            (states self.old) (states self.new)) }
        ensures failed { OnErr result (states self.new ≡ states self.old) }
        ensures count { failures self.new ≡ count_after (is_err result) (failures self.old) };

    /// Gives a file the owner and the group of another.
    fn copy_owner(&mut self, source: &str, name: &str) -> io::Result<()>
        ensures does { Does (Copies HasOwner source.now name.now) (states self.old)
            (states self.new) (failures self.old) (failures self.new) result };

    /// Gives a file the mode of another.
    fn copy_mode(&mut self, source: &str, name: &str) -> io::Result<()>
        ensures does { Does (Copies HasMode source.now name.now) (states self.old)
            (states self.new) (failures self.old) (failures self.new) result };

    /// Gives a file the access and modification times of another.
    fn copy_times(&mut self, source: &str, name: &str) -> io::Result<()>
        ensures does { Does (Copies HasTimes source.now name.now) (states self.old)
            (states self.new) (failures self.old) (failures self.new) result };

    /// Waits until the disk has all of a file.
    fn sync(&mut self, name: &str) -> io::Result<()>
        ensures does { Does (Syncs name.now) (states self.old) (states self.new)
            (failures self.old) (failures self.new) result };

    /// Gives a file one more name if that is free, and answers whether it was.
    fn link(&mut self, source: &str, name: &str) -> io::Result<bool>
        ensures does { DoesIfFree name.now (Links source.now name.now) (states self.old)
            (states self.new) (failures self.old) (failures self.new) result };

    /// Gives a file another name, in one step, in place of what has it. Something must have it: a
    /// name that nothing has is taken by [`FileSystem::link`] or [`FileSystem::create`], which fail
    /// where another program has taken it meanwhile. It fails where another program has changed the
    /// file that has the name since it was read here.
    fn rename(&mut self, source: &str, name: &str) -> io::Result<()>
        requires apart { source.now ≢ name.now }
        requires there { Now (states self.old) (IsThere name.now) }
        ensures does { Does (Renames source.now name.now) (states self.old) (states self.new)
            (failures self.old) (failures self.new) result };

    /// Removes a name.
    fn remove(&mut self, name: &str) -> io::Result<()>
        ensures does { Does (Removes name.now) (states self.old) (states self.new)
            (failures self.old) (failures self.new) result };

    /// Waits until the disk has the name of a file.
    fn settle(&mut self, name: &str) -> io::Result<()>
        ensures does { Does (Settles name.now) (states self.old) (states self.new)
            (failures self.old) (failures self.new) result };
}
