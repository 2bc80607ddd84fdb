//! Renames that are taken back.

ghost use Rattle.std.specs.Prelude.{◌≡◌, List, IfErr, IfOk, IsTrue, OnErr, OnOk, length};
ghost use Rattle.exif_decisions.specs.declared.outcome.Outcome.{Outcome};
ghost use Rattle.exif_decisions.specs.declared.outcome.Outcome.TheVariants.{Done, Refused};
ghost use Rattle.exif_files.specs.declared.outcome.Status.TheVariants as status;
ghost use Rattle.exif_inputs.specs.Pending.{with_counts};
ghost use Rattle.exif_session.specs.Counting.{with_beside};
ghost use Rattle.exif_rename_commands.specs.Counting.{counted_all};
ghost use Rattle.exif_rename_commands.specs.Undone.{AreCounted, IsDryOutcome, IsUndone, source_of};

use crate::backs::{Names, back_of};
use crate::moves::{Folders, Moving, move_all};
use crate::words::{NotBackLine, wrong_line};
use exif::Sink;
use exif_decisions::Outcome;
use exif_inputs::read_file;
use exif_rename::{Move, Step, steps_of};
use exif_session::{Session, Stop};
use std::{fs, io};

/// Gives the files of a run of `rename` their old names back, by the lines that it wrote, the last
/// first, and counts them. Nothing is done where one of the lines is none of such a
/// run. No file is overwritten.
pub fn undo_renames<W: Sink, E: Sink>(
    session: &mut Session<'_, '_, W, E>,
    dry_run: bool,
) -> Result<(), Stop>
    ensures { session.new.pending.waiting ≡ session.old.pending.waiting }
{
    let path = source_of(session.request.paths.as_slice());
    let lines = read_file(session.rt, path);
    undo_lines(session, dry_run, path, lines)
}

// The same with the lines that were read, or why they can't be.
fn undo_lines<W: Sink, E: Sink>(
    session: &mut Session<'_, '_, W, E>,
    dry_run: bool,
    path: &str,
    lines: io::Result<Vec<u8>>,
) -> Result<(), Stop>
    ensures unread { IfErr lines (λ e. OnOk result (session.new.pending
        ≡ with_beside status.Refused session.old.pending)) }
    ensures undone { IfOk lines (λ text. OnOk result
        (IsUndone text.items session.old.pending session.new.pending)) }
    ensures waiting { session.new.pending.waiting ≡ session.old.pending.waiting }
{
    match lines {
        Ok(text) => undo_text(session, dry_run, path, text.as_slice()),
        Err(cause) => session.refuse_beside(path, &cause),
    }
}

// The same with the text of the lines.
fn undo_text<W: Sink, E: Sink>(
    session: &mut Session<'_, '_, W, E>,
    dry_run: bool,
    path: &str,
    text: &[u8],
) -> Result<(), Stop>
    ensures undone { OnOk result
        (IsUndone text.now session.old.pending session.new.pending) }
    ensures waiting { session.new.pending.waiting ≡ session.old.pending.waiting }
{
    let steps = steps_of(session.rt.alloc(), text)?;
    undo_steps(session, dry_run, path, steps)
}

// The same with the steps that the lines say, or the number of one that says none.
fn undo_steps<W: Sink, E: Sink>(
    session: &mut Session<'_, '_, W, E>,
    dry_run: bool,
    path: &str,
    steps: Result<Vec<Step>, usize>,
) -> Result<(), Stop>
    ensures wrong { IfErr steps (λ number. OnOk result (session.new.pending
        ≡ with_beside status.Refused session.old.pending)) }
    ensures kept { IfErr steps (λ number.
        OnErr result (session.new.pending ≡ session.old.pending)) }
    ensures counted { IfOk steps (λ steps. OnOk result
        (AreCounted (length steps.items) session.old.pending session.new.pending)) }
    ensures waiting { session.new.pending.waiting ≡ session.old.pending.waiting }
{
    match steps {
        Ok(steps) => take_all_back(session, dry_run, steps),
        Err(number) => {
            let why = wrong_line(session.rt.alloc(), number)?;
            session.refuse_beside(path, &why)
        }
    }
}

// The file that has the lines: the first that is named, or standard input.
fn source_of<'a>(paths: &[&'a str]) -> &'a str
    ensures { result.now ≡ source_of paths.now }
{
    match paths {
        [path, ..] => path,
        [] => "-",
    }
}

// Takes all steps back, the last first, and counts them.
fn take_all_back<W: Sink, E: Sink>(
    session: &mut Session<'_, '_, W, E>,
    dry_run: bool,
    steps: Vec<Step>,
) -> Result<(), Stop>
    ensures counted { OnOk result
        (AreCounted (length steps.items) session.old.pending session.new.pending) }
    ensures waiting { session.new.pending.waiting ≡ session.old.pending.waiting }
{
    let alloc = session.rt.alloc();
    let mut undoing = Undoing {
        dry_run,
        folders: Folders::new(alloc),
        names: Names::new(alloc),
    };
    undoing.take_each_back(session, steps)?;
    undoing.folders.settle(session)
}

// A run that takes renames back.
#[derive(Drop)]
struct Undoing {
    dry_run: bool,
    folders: Folders,
    names: Names,
}

impl Undoing {
    // Takes all steps back, the last first, and counts them.
    fn take_each_back<W: Sink, E: Sink>(
        &mut self,
        session: &mut Session<'_, '_, W, E>,
        mut steps: Vec<Step>,
    ) -> Result<(), Stop>
        ensures counted { OnOk result ((outcomes : List Outcome)
            × (length outcomes ≡ length steps.items) × (session.new.pending
            ≡ with_counts (counted_all outcomes session.old.pending.counts) session.old.pending)) }
        ensures waiting { session.new.pending.waiting ≡ session.old.pending.waiting }
        ensures dry { IsTrue self.old.dry_run → self.new.folders ≡ self.old.folders }
    {
        steps.reverse();
        for step in steps {
            let outcome = self.take_back(session, step)?;
            session.count(outcome);
        }
        Ok(())
    }

    // Gives a file its old name back, but for a copy.
    fn take_back<W: Sink, E: Sink>(
        &mut self,
        session: &mut Session<'_, '_, W, E>,
        step: Step,
    ) -> Result<Outcome, Stop>
        ensures copied { IsTrue step.copied → IfOk result (λ outcome. outcome ≡ Refused) }
        ensures dry { IsTrue self.old.dry_run → IfOk result IsDryOutcome }
        ensures folders { IsTrue self.old.dry_run → self.new.folders ≡ self.old.folders }
        ensures same { self.new.dry_run ≡ self.old.dry_run }
        ensures pending { session.new.pending ≡ session.old.pending }
    {
        let (old, new) = (step.from, step.to);
        let has_new = self.has(session.rt, new.as_str());
        let has_old = self.has(session.rt, old.as_str());
        if let Err(why) = back_of(step.copied, has_new, has_old) {
            let old = old.as_str();
            return session.refuse(new.as_str(), &NotBackLine { why, old });
        }
        if self.dry_run {
            self.names.take_back(&old, &new)?;
        }
        self.move_back(session, old, new)
    }

    // Whether something has a name, or would have it in a run that is not dry.
    fn has(&self, rt: &HostRuntime, name: &str) -> bool {
        self.names.has(name, fs::symlink_metadata(rt, name).is_ok())
    }

    // Moves a file to its old name.
    fn move_back<W: Sink, E: Sink>(
        &mut self,
        session: &mut Session<'_, '_, W, E>,
        old: String,
        new: String,
    ) -> Result<Outcome, Stop>
        ensures dry { IsTrue self.old.dry_run → IfOk result (λ outcome. outcome ≡ Done) }
        ensures folders { IsTrue self.old.dry_run → self.new.folders ≡ self.old.folders }
        ensures same { self.new.dry_run ≡ self.old.dry_run }
        ensures pending { session.new.pending ≡ session.old.pending }
    {
        let moving = Moving {
            copy: false,
            dry_run: self.dry_run,
        };
        let path = new.clone()?;
        let back = [Move { from: new, to: old }];
        move_all(session, moving, &mut self.folders, path.as_str(), &back)
    }
}
