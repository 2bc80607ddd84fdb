//! Many files that are changed in place, each once; a file that is refused does not stop the
//! others.

ghost use Rattle.std.specs.Prelude.{◌≡◌, ◌==◌, ◌<◌, ◌+◌, ◌^◌, ℕ, List, map, not, true, false, if◌then◌else◌, length, IfOk, OnOk, OnErr, string_bytes};
ghost use Rattle.std.specs.BTreeSet.{contains_text};
ghost use Rattle.std.specs.Str.{bytes_eq};
ghost use Rattle.exif_files.specs.declared.outcome.Status.TheVariants.{Success, Incomplete, Refused};
ghost use Rattle.exif_files.specs.States.{Run};
ghost use Rattle.exif_files.specs.Names.{backup_if};
ghost use Rattle.exif_files.specs.Changed.{IsWholeChange, IsOutcome};
ghost use Rattle.exif_files.specs.Statuses.{status_for};
ghost use Rattle.exif_files.specs.Parts.{Takes};
ghost use Rattle.exif_files.specs.Each.{IsEachWhole, IsEachDone, AreOnce};

use crate::changing::{Edit, Failure, Keeping, Report, change};
use crate::outcome::Status;
use crate::system::FileSystem;
use std::alloc::{AllocError, Global};
use std::collections::BTreeSet;

/// What hears of each name of a run, in their order.
pub trait Reporter<L, N, R> {
    /// How many names it has heard of.
    ghost heard: { Self → ℕ };

    /// The file of the next name was changed, and what is reported of it; or it was not.
    fn report(&mut self, outcome: Result<Report<L, N>, Failure<R>>)
        requires { heard self.old + 1 < 2 ^ 64 }
        ensures { heard self.new ≡ heard self.old + 1 };

    /// The file of the next name had its change before, under a name that is the same.
    fn skip(&mut self)
        requires { heard self.old + 1 < 2 ^ 64 }
        ensures { heard self.new ≡ heard self.old + 1 };
}

/// Changes the files of these names in place, each once however often it is named. The reporter
/// hears of each name in turn, also of one that came before. Answers what became of each name's
/// file, and nothing for a name that came before: a file that was changed is incomplete exactly
/// where the edit leaves something undone in its bytes. A file that is refused does not stop the
/// others.
///
/// In every state of the run each file is the old one or its answer, whole: also where the process
/// is killed, and where memory runs out, which alone ends the run.
pub fn change_all<F: FileSystem, E: Edit, P: Reporter<E::Residual, E::Note, E::Refusal>>(
    alloc: Global,
    files: &mut F,
    edit: &E,
    names: &[String],
    keeping: Keeping,
    reporter: &mut P,
) -> Result<Vec<Option<Status>>, AllocError>
    requires { P.heard reporter.old ≡ 0 }
    ensures whole { Run (IsEachWhole (E.answer edit.now) keeping.backup keeping.times)
        (IsEachWhole (E.answer edit.now) keeping.backup keeping.times)
        (F.states files.old) (F.states files.new) }
    ensures once { IfOk result (λ results.
        AreOnce (map string_bytes names.now) results.items) }
    ensures done { IfOk result (λ results.
        Run (IsEachWhole (E.answer edit.now) keeping.backup keeping.times)
        (IsEachDone (E.answer edit.now) keeping.times (E.undone edit.now)
        (map string_bytes names.now) results.items)
        (F.states files.old) (F.states files.new)) }
    ensures heard { OnOk result (P.heard reporter.new ≡ length names.now) }
{
    let mut seen: BTreeSet<String> = BTreeSet::new(alloc);
    let mut results = Vec::new(alloc);
    for name in names {
        let name = name.as_str();
        let seen = &mut seen;
        change_next(
            alloc,
            files,
            edit,
            name,
            keeping,
            reporter,
            seen,
            &mut results,
        )?;
    }
    Ok(results)
}

// Changes a file, unless its name was seen, and adds what became of it to the results.
fn change_next<F: FileSystem, E: Edit, P: Reporter<E::Residual, E::Note, E::Refusal>>(
    alloc: Global,
    files: &mut F,
    edit: &E,
    name: &str,
    keeping: Keeping,
    reporter: &mut P,
    seen: &mut BTreeSet<String>,
    results: &mut Vec<Option<Status>>,
) -> Result<(), AllocError>
    requires { P.heard reporter.old + 1 < 2 ^ 64 }
    ensures taken { OnOk result (Takes (E.answer edit.now) name.now
        (backup_if keeping.backup name.now) keeping.times (E.undone edit.now)
        (F.states files.old) (F.states files.new) (contains_text seen.old name.now) results.old.items
        results.new.items) }
    ensures more { OnOk result ((q : List ℕ) → contains_text seen.new q
        ≡ (if bytes_eq name.now q then true else contains_text seen.old q)) }
    ensures same { contains_text seen.old name.now ≡ true
        → F.states files.new ≡ F.states files.old }
    ensures whole { Run (IsWholeChange (E.answer edit.now) name.now
        (backup_if keeping.backup name.now) keeping.times false)
        (IsWholeChange (E.answer edit.now) name.now
        (backup_if keeping.backup name.now) keeping.times false)
        (F.states files.old) (F.states files.new) }
    ensures heard { OnOk result (P.heard reporter.new ≡ P.heard reporter.old + 1) }
{
    if !insert(alloc, seen, name)? {
        reporter.skip();
        results.push(None)?;
        return Ok(());
    }
    let status = change_one(alloc, files, edit, name, keeping, reporter);
    results.push(Some(status))?;
    Ok(())
}

// Adds a name to those that were seen, and answers whether it is new.
fn insert(alloc: Global, seen: &mut BTreeSet<String>, name: &str) -> Result<bool, AllocError>
    ensures new { IfOk result (λ new. new ≡ not (contains_text seen.old name.now)) }
    ensures more { OnOk result ((q : List ℕ) → contains_text seen.new q
        ≡ (if bytes_eq name.now q then true else contains_text seen.old q)) }
{
    Ok(seen.insert(String::from_str(alloc, name)?)?)
}

// Changes a file and reports it.
fn change_one<F: FileSystem, E: Edit, P: Reporter<E::Residual, E::Note, E::Refusal>>(
    alloc: Global,
    files: &mut F,
    edit: &E,
    name: &str,
    keeping: Keeping,
    reporter: &mut P,
) -> Status
    requires { P.heard reporter.old + 1 < 2 ^ 64 }
    ensures changed { Run (IsWholeChange (E.answer edit.now) name.now
        (backup_if keeping.backup name.now) keeping.times false)
        (IsOutcome (E.answer edit.now) name.now (backup_if keeping.backup name.now)
        keeping.times (E.undone edit.now) result)
        (F.states files.old) (F.states files.new) }
    ensures heard { P.heard reporter.new ≡ P.heard reporter.old + 1 }
{
    let changed = change(alloc, files, edit, name, keeping);
    let status = status_of(&changed);
    reporter.report(changed);
    status
}

// The status of a file: it is refused at an error, and incomplete where something was left undone.
fn status_of<L, N, R>(changed: &Result<Report<L, N>, Failure<R>>) -> Status
    ensures ok { IfOk changed.now (λ report.
        result ≡ status_for (length report.left.items)) }
    ensures err { OnErr changed.now (result ≡ Refused) }
{
    match changed {
        Ok(report) if report.left.is_empty() => Status::Success,
        Ok(_) => Status::Incomplete,
        Err(_) => Status::Refused,
    }
}
