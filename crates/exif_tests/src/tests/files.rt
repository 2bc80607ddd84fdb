//! Each call of a change fails in turn, and what is there then is looked at.

ghost use Rattle.std.specs.Prelude.{⊤, ◌≡◌, ◌<◌, ◌+◌, ◌^◌};

use exif_files::{
    Edit, EditError, Edited, Failure, FileSystem, HostFiles, Keeping, Report, Reporter, Status,
    WriteError, change, change_all, create_new, finish_move, move_new, replace,
};
use exif_test_support::{MemoryFiles, Stored};
use std::alloc::Global;
use std::fs;
use std::test::Fail;

// Removes the spaces; a file without bytes is refused.
#[derive(Drop)]
struct Unspaced;

impl Edit for Unspaced {
    type Residual = u8;

    type Note = u8;

    type Refusal = u8;

    ghost answer = { λ _ _ _. ⊤ };

    ghost undone = { λ _ _. 0 };

    fn apply(&self, alloc: Global, old: &[u8]) -> Result<Edited<u8, u8>, EditError<u8>> {
        if old.is_empty() {
            return Err(EditError::Refused(1));
        }
        let mut file = Vec::new(alloc);
        for byte in old {
            if *byte != b' ' && file.push(*byte).is_err() {
                return Err(EditError::OutOfMemory);
            }
        }
        Ok(Edited {
            file,
            report: Report {
                left: Vec::new(alloc),
                notes: Vec::new(alloc),
            },
        })
    }
}

// Counts what it hears.
#[derive(Drop)]
struct Heard {
    names: usize,
    changed: u32,
    refused: u32,
}

impl Reporter<u8, u8, u8> for Heard {
    ghost heard = { λ heard. heard.names };

    fn skip(&mut self)
        requires { self.old.names + 1 < 2 ^ 64 }
        ensures { self.new.names ≡ self.old.names + 1 }
    {
        self.names += 1;
    }

    fn report(&mut self, outcome: Result<Report<u8, u8>, Failure<u8>>)
        requires { self.old.names + 1 < 2 ^ 64 }
        ensures { self.new.names ≡ self.old.names + 1 }
    {
        self.names += 1;
        if outcome.is_ok() {
            self.changed = self.changed.saturating_add(1);
        } else {
            self.refused = self.refused.saturating_add(1);
        }
    }
}

const OLD: &[u8] = b"an old picture";

const NEW: &[u8] = b"anoldpicture";

fn stored(alloc: Global, bytes: &[u8]) -> Result<Stored, Fail> {
    Ok(Stored {
        bytes: bytes.to_vec(alloc)?,
        mode: 0o640,
        owner: 7,
        times: 1234,
    })
}

// Whether a name has a file of these bytes, like the old one.
fn has(files: &MemoryFiles, name: &str, bytes: &[u8]) -> Result<bool, Fail> {
    match files.find(name)? {
        None => Ok(bytes.is_empty()),
        Some(file) => Ok(
            file.bytes.as_slice() == bytes && file.mode == 0o640 && file.times == 1234,
        ),
    }
}

#[test]
fn each_call_fails_in_turn(rt: HostRuntime) -> Result<(), Fail> {
    let alloc = rt.alloc();
    let keeping = Keeping {
        backup: true,
        times: true,
    };
    for calls in 0..13u64 {
        let mut files = MemoryFiles::new(alloc);
        files.insert("/a.jpg", stored(alloc, OLD)?)?;
        files.fail_after(calls);
        let result = change(alloc, &mut files, &Unspaced, "/a.jpg", keeping);
        let is_ok = result.is_ok();
        drop(result);
        // read, create, append, owner, mode, times, sync, link, rename, settle
        assert_eq!(rt; is_ok, calls == 3 || calls >= 10, "at {calls}");
        let is_new = calls == 3 || calls >= 9;
        assert!(rt;
            has(&files, "/a.jpg", if is_new { NEW } else { OLD })?,
            "at {calls}"
        );
        assert!(rt;
            has(&files, "/a.jpg.orig", if is_new { OLD } else { b"" })?,
            "at {calls}"
        );
        assert!(rt; files.find("/.mexaldor-0")?.is_none(), "at {calls}");
    }
    Ok(())
}

#[test]
fn a_new_file_is_whole_or_absent(rt: HostRuntime) -> Result<(), Fail> {
    let alloc = rt.alloc();
    for calls in 0..8u64 {
        let mut files = MemoryFiles::new(alloc);
        files.fail_after(calls);
        let result = create_new(alloc, &mut files, "/b.jpg", NEW);
        let is_ok = result.is_ok();
        drop(result);
        // create, append, sync, link, remove, settle
        assert_eq!(rt; is_ok, calls >= 6, "at {calls}");
        let file = files.find("/b.jpg")?;
        assert_eq!(rt; file.is_some(), calls >= 5, "at {calls}");
        drop(file);
        assert!(rt; files.find("/.mexaldor-0")?.is_none(), "at {calls}");
    }
    let mut files = MemoryFiles::new(alloc);
    files.insert("/b.jpg", stored(alloc, OLD)?)?;
    let result = create_new(alloc, &mut files, "/b.jpg", NEW);
    let is_taken = matches!(&result, Err(WriteError::Taken));
    drop(result);
    assert!(rt; is_taken);
    assert!(rt; has(&files, "/b.jpg", OLD)?);
    Ok(())
}

#[test]
fn a_file_is_moved_whole_or_not_at_all(rt: HostRuntime) -> Result<(), Fail> {
    let alloc = rt.alloc();
    for calls in 0..4u64 {
        let mut files = MemoryFiles::new(alloc);
        files.insert("/a.jpg", stored(alloc, OLD)?)?;
        files.fail_after(calls);
        let result = move_new(&mut files, "/a.jpg", "/b.jpg");
        let is_ok = result.is_ok();
        drop(result);
        // link, remove
        assert_eq!(rt; is_ok, calls >= 2, "at {calls}");
        assert!(rt;
            has(&files, "/a.jpg", if is_ok { b"" } else { OLD })?,
            "at {calls}"
        );
        assert!(rt;
            has(&files, "/b.jpg", if is_ok { OLD } else { b"" })?,
            "at {calls}"
        );
    }
    Ok(())
}

#[test]
fn a_move_that_was_cut_off_is_finished(rt: HostRuntime) -> Result<(), Fail> {
    let alloc = rt.alloc();
    let mut files = MemoryFiles::new(alloc);
    files.insert("/a.jpg", stored(alloc, OLD)?)?;
    files.insert("/other.jpg", stored(alloc, NEW)?)?;
    assert!(rt; files.link("/a.jpg", "/b.jpg")?);
    assert!(rt; matches!(finish_move(&mut files, "/a.jpg", "/other.jpg"), Ok(false)));
    assert!(rt; matches!(finish_move(&mut files, "/a.jpg", "/a.jpg"), Ok(false)));
    assert!(rt; matches!(finish_move(&mut files, "/a.jpg", "/c.jpg"), Ok(false)));
    assert!(rt; has(&files, "/a.jpg", OLD)?);
    assert!(rt; matches!(finish_move(&mut files, "/a.jpg", "/b.jpg"), Ok(true)));
    assert!(rt; files.find("/a.jpg")?.is_none());
    assert!(rt; has(&files, "/b.jpg", OLD)? && has(&files, "/other.jpg", NEW)?);
    Ok(())
}

#[test]
fn a_file_is_moved_where_it_can_not_have_two_names(rt: HostRuntime) -> Result<(), Fail> {
    let alloc = rt.alloc();
    let mut files = MemoryFiles::new(alloc);
    files.lack_links();
    files.insert("/a.jpg", stored(alloc, OLD)?)?;
    files.insert("/taken.jpg", stored(alloc, NEW)?)?;
    let taken = move_new(&mut files, "/a.jpg", "/taken.jpg");
    assert!(rt; matches!(&taken, Err(WriteError::Taken)));
    assert!(rt; move_new(&mut files, "/a.jpg", "/b.jpg").is_ok());
    assert!(rt; files.find("/a.jpg")?.is_none());
    assert!(rt; has(&files, "/b.jpg", OLD)? && has(&files, "/taken.jpg", NEW)?);
    assert!(rt; create_new(alloc, &mut files, "/c.jpg", NEW).is_ok());
    let made = files.find("/c.jpg")?;
    assert!(rt; matches!(&made, Some(file) if file.bytes.as_slice() == NEW));
    assert!(rt; files.find("/.mexaldor-0")?.is_none());
    Ok(())
}

const THEIRS: &[u8] = b"theirs";

// Changes a file in which another program writes meanwhile.
#[derive(Drop)]
struct Disturbed<'r> {
    rt: &'r HostRuntime,
}

impl Edit for Disturbed<'_> {
    type Residual = u8;

    type Note = u8;

    type Refusal = u8;

    ghost answer = { λ _ _ _. ⊤ };

    ghost undone = { λ _ _. 0 };

    fn apply(&self, alloc: Global, old: &[u8]) -> Result<Edited<u8, u8>, EditError<u8>> {
        let mut file = Vec::new(alloc);
        if file.extend_from_slice(old).is_err() || file.push(b'!').is_err() {
            return Err(EditError::OutOfMemory);
        }
        if fs::write(self.rt, "disturbed.test", THEIRS).is_err() {
            return Err(EditError::Refused(1));
        }
        Ok(Edited {
            file,
            report: Report {
                left: Vec::new(alloc),
                notes: Vec::new(alloc),
            },
        })
    }
}

#[test]
fn a_file_that_another_program_changed_is_not_replaced(rt: HostRuntime) -> Result<(), Fail> {
    let alloc = rt.alloc();
    fs::write(&rt, "disturbed.test", OLD)?;
    let keeping = Keeping {
        backup: false,
        times: false,
    };
    let edit = Disturbed { rt: &rt };
    let result = change(
        alloc,
        &mut HostFiles::new(&rt),
        &edit,
        "disturbed.test",
        keeping,
    );
    let is_refused = matches!(&result, Err(Failure::Writing(WriteError::Io(_))));
    drop(result);
    assert!(rt; is_refused);
    assert!(rt; fs::read(&rt, "disturbed.test")?.as_slice() == THEIRS);
    fs::remove_file(&rt, "disturbed.test")?;
    Ok(())
}

#[test]
fn each_file_is_changed_once(rt: HostRuntime) -> Result<(), Fail> {
    let alloc = rt.alloc();
    let mut files = MemoryFiles::new(alloc);
    files.insert("/a.jpg", stored(alloc, OLD)?)?;
    files.insert("/b.jpg", stored(alloc, b"")?)?;
    files.insert("/c.jpg", stored(alloc, OLD)?)?;
    let mut names = Vec::new(alloc);
    for name in ["/a.jpg", "/b.jpg", "/a.jpg", "/none.jpg", "/c.jpg"] {
        names.push(String::from_str(alloc, name)?)?;
    }
    let mut heard = Heard {
        names: 0,
        changed: 0,
        refused: 0,
    };
    let keeping = Keeping {
        backup: false,
        times: true,
    };
    let results = change_all(
        alloc,
        &mut files,
        &Unspaced,
        names.as_slice(),
        keeping,
        &mut heard,
    )?;
    let expected = [
        Some(Status::Success),
        Some(Status::Refused),
        None,
        Some(Status::Refused),
        Some(Status::Success),
    ];
    assert!(rt; results.as_slice() == expected.as_slice());
    assert_eq!(rt; heard.changed, 2);
    assert_eq!(rt; heard.refused, 2);
    assert!(rt; has(&files, "/a.jpg", NEW)? && has(&files, "/c.jpg", NEW)?);
    Ok(())
}

#[test]
fn files_of_the_host(rt: HostRuntime) -> Result<(), Fail> {
    let alloc = rt.alloc();
    for name in ["files.test", "files.test.orig", "files.test.new"] {
        let _absent = fs::remove_file(&rt, name);
    }
    fs::write(&rt, "files.test", OLD)?;
    let mut files = HostFiles::new(&rt);
    let backup = Some("files.test.orig");
    let replaced = replace(alloc, &mut files, "files.test", backup, true, NEW);
    assert!(rt; replaced.is_ok());
    assert!(rt; fs::read(&rt, "files.test")?.as_slice() == NEW);
    assert!(rt; fs::read(&rt, "files.test.orig")?.as_slice() == OLD);
    let again = replace(alloc, &mut files, "files.test", backup, true, OLD);
    assert!(rt; matches!(&again, Err(WriteError::Taken)));
    assert!(rt; fs::read(&rt, "files.test")?.as_slice() == NEW);
    assert!(rt; create_new(alloc, &mut files, "files.test.new", NEW).is_ok());
    assert!(rt; fs::read(&rt, "files.test.new")?.as_slice() == NEW);
    for name in ["files.test", "files.test.orig", "files.test.new"] {
        fs::remove_file(&rt, name)?;
    }
    Ok(())
}
