//! The pictures of a run over a catalogue, one after the other.

ghost use Rattle.std.specs.Prelude.{◌≡◌, ◌≢◌, ◌++◌, ◌∷◌, [], String, false, true, length, IfOk, IfSome, None, OnErr, OnOk, Some, map, string_bytes};
ghost use Rattle.std.specs.BTreeSet.{contains_text};
ghost use Rattle.std.specs.Global.{Global};
ghost use Rattle.std.specs.IoError.{error_kind};
ghost use Rattle.std.specs.declared.io.ErrorKind.TheVariants.{NotFound};
ghost use Rattle.exif_decisions.specs.Tallies.{counted};
ghost use Rattle.exif_decisions.specs.declared.outcome.Outcome.TheVariants.{Done, Refused};
ghost use Rattle.exif_gathering.specs.Rows.{is_whole, known_stamp, outcome_by};
ghost use Rattle.exif_gathering.specs.Steps.{counted_last, counted_step, unseen_in};
ghost use Rattle.exif_inputs.specs.Pending.{with_counts};

use exif::{Error, Sink};
use exif_catalog::{FileRow, Found, Pictures};
use exif_decisions as decisions;
use exif_gathering::{LastPicture, NextStep, is_hidden, is_whole, step_of};
use exif_inputs::Next;
use exif_session::{Cataloguing, Session, Stop, absolute_of};
use std::io;

/// The pictures of a run.
#[derive(Drop)]
pub struct Gathered<'s, 'r, 'a, 'd, 'c, W, E> {
    pub session: &'s mut Session<'r, 'a, W, E>,
    pub cataloguing: &'d Cataloguing<'c>,
    pub has_conditions: bool,
    /// The picture that was given last.
    pub last: LastPicture,
    /// The names that could not be followed.
    pub failed: Vec<String>,
}

impl<W: Sink, E: Sink> Gathered<'_, '_, '_, '_, '_, W, E> {
    // Counts the picture that was given last, once.
    fn end_picture(&mut self)
        ensures counted { self.new.session.now.pending ≡ with_counts
            (counted_last self.old.last.outcome self.old.session.now.pending.counts)
            self.old.session.now.pending }
        ensures outcome { self.new.last.outcome ≡ None }
        ensures same { self.new.session.ghost_name ≡ self.old.session.ghost_name }
    {
        if let Some(outcome) = self.last.outcome {
            self.session.count(outcome);
            let left = self.session.pending.len();
            self.session.console.step(left);
        }
        self.last.outcome = None;
    }

    // Reports a name that leads to no picture, and counts it.
    fn refuse<T: std::fmt::Display>(&mut self, path: &str, cause: &T) -> Result<(), Stop>
        ensures counted { OnOk result (self.new.session.now.pending ≡ with_counts
            (counted Refused self.old.session.now.pending.counts)
            self.old.session.now.pending) }
        ensures kept { OnErr result
            (self.new.session.now.pending ≡ self.old.session.now.pending) }
        ensures failed { self.new.failed ≡ self.old.failed }
        ensures same { self.new.session.ghost_name ≡ self.old.session.ghost_name }
    {
        let outcome = self.session.refuse(path, cause)?;
        self.session.count(outcome);
        Ok(())
    }

    // Reports a name that can't be followed. Unless nothing has it, what is below it is not known.
    fn fail(&mut self, path: String, cause: io::Error) -> Result<(), Stop>
        ensures counted { OnOk result (self.new.session.now.pending ≡ with_counts
            (counted Refused self.old.session.now.pending.counts)
            self.old.session.now.pending) }
        ensures known { error_kind cause ≡ NotFound → self.new.failed ≡ self.old.failed }
        ensures hidden { error_kind cause ≢ NotFound → OnOk result ((name : String Global)
            × (self.new.failed.items ≡ self.old.failed.items ++ name ∷ [])) }
        ensures same { self.new.session.ghost_name ≡ self.old.session.ghost_name }
    {
        self.refuse(path.as_str(), &cause)?;
        if is_hidden(cause.kind()) {
            self.failed
                .push(absolute_of(self.session.rt, path.as_str())?)?;
        }
        Ok(())
    }

    // The next file. It is opened only where there are conditions: else its stamp may be that of
    // its row.
    fn next_file(&mut self) -> Result<Option<Next>, Stop>
        ensures none { IfOk result (λ next. next ≡ None
            → length self.new.session.now.pending.waiting.items ≡ 0) }
        ensures same { self.new.session.ghost_name ≡ self.old.session.ghost_name }
    {
        if self.has_conditions {
            self.session.next_chosen()
        } else {
            self.session.next_waiting()
        }
    }

    // Begins with a picture. One that was there before, by whatever path, is not given again.
    fn begin_picture(&mut self, shown: String, is_unseen: bool) -> Result<Option<Found>, Stop>
        ensures stamp { IfOk result (λ found. IfSome found
            (λ found. found.stamp ≡ known_stamp self.new.last.stamp)) }
        ensures begun { IfOk result (λ found. IfSome found (λ found.
            (self.new.last.outcome ≡ Some Done) × (self.new.last.faults ≡ 0))) }
        ensures unseen { IfOk result (λ found. IfSome found
            (λ found. self.new.last.is_unseen ≡ is_unseen)) }
        ensures new { IfOk result (λ found. IfSome found (λ found.
            contains_text self.old.last.seen (string_bytes self.new.last.path) ≡ false)) }
        ensures session { self.new.session ≡ self.old.session }
    {
        let rt = self.session.rt;
        let path = absolute_of(rt, shown.as_str())?;
        Ok(self.last.begin(rt, path, shown, is_unseen)?)
    }

    // Does a step. It answers the picture that it begins with, if it is one that was not given
    // before.
    fn take_step(&mut self, step: NextStep) -> Result<Option<Found>, Stop>
        ensures counted { OnOk result (self.new.session.now.pending ≡ with_counts
            (counted_step step self.old.session.now.pending.counts)
            self.old.session.now.pending) }
        ensures begun { IfOk result (λ found. IfSome found (λ found.
            (unseen_in step ≡ Some self.new.last.is_unseen) × (self.new.last.outcome ≡ Some Done)
            × (self.new.last.faults ≡ 0) × (found.stamp ≡ known_stamp self.new.last.stamp))) }
        ensures new { IfOk result (λ found. IfSome found (λ found.
            contains_text self.old.last.seen (string_bytes self.new.last.path) ≡ false)) }
        ensures same { self.new.session.ghost_name ≡ self.old.session.ghost_name }
    {
        match step {
            NextStep::Begin(path, is_unseen) => return self.begin_picture(path, is_unseen),
            NextStep::Skip(path, why) => {
                self.session
                    .skip(path.as_str(), decisions::Found::NotRead(why))?;
            }
            NextStep::RefuseInput => self.refuse("-", &"standard input has no name")?,
            NextStep::Fail(path, cause) => self.fail(path, cause)?,
        }
        Ok(None)
    }

    // The next picture. None only where nothing waits.
    fn next_picture(&mut self) -> Result<Option<Found>, Stop>
        ensures ended { IfOk result (λ found. found ≡ None
            → length self.new.session.now.pending.waiting.items ≡ 0) }
        ensures begun { IfOk result (λ found. IfSome found (λ found.
            (self.new.last.outcome ≡ Some Done) × (self.new.last.faults ≡ 0)
            × (found.stamp ≡ known_stamp self.new.last.stamp))) }
        ensures same { self.new.session.ghost_name ≡ self.old.session.ghost_name }
    {
        'files: for _ in 0..u64::MAX {
            let Some(next) = self.next_file()? else {
                return Ok(None);
            };
            if let Some(found) = self.take_step(step_of(next, self.has_conditions))? {
                return Ok(Some(found));
            }
        }
        Err(Stop::OutOfMemory)
    }

    // Whether the file that was given last is a picture, by its first bytes where they were not
    // looked at; one that is none is skipped.
    fn is_picture(&mut self) -> Result<bool, Stop>
        ensures seen { self.old.last.is_unseen ≡ false → IfOk result (λ is. is ≡ true) }
        ensures same { self.new.session.ghost_name ≡ self.old.session.ghost_name }
    {
        if !self.last.is_unseen {
            return Ok(true);
        }
        let path = self.last.shown.clone()?;
        match self.session.chosen(Next::Found(path))? {
            Some(Next::Beside(path, why)) => {
                let found = decisions::Found::NotRead(why);
                self.session.skip(path.as_str(), found)?;
                Ok(false)
            }
            Some(_) => Ok(true),
            None => Ok(false),
        }
    }
}

impl<W: Sink, E: Sink> Pictures for Gathered<'_, '_, '_, '_, '_, W, E> {
    type Error = Stop;

    ghost ends = { λ it. length it.session.now.pending.waiting.items ≡ 0 };

    ghost hashes = { λ it. it.cataloguing.now.hash };

    ghost through = { λ it. it.session.ghost_name ∷ [] };

    fn next(&mut self) -> Result<Option<Found>, Stop>
        ensures ended { IfOk result (λ found. found ≡ None
            → length self.new.session.now.pending.waiting.items ≡ 0) }
        ensures begun { IfOk result (λ found. IfSome found (λ found.
            (self.new.last.outcome ≡ Some Done) × (self.new.last.faults ≡ 0)
            × (found.stamp ≡ known_stamp self.new.last.stamp))) }
        ensures same { self.new.session.ghost_name ≡ self.old.session.ghost_name }
    {
        self.end_picture();
        self.next_picture()
    }

    fn needs_hash(&self) -> bool
        ensures { result ≡ self.now.cataloguing.now.hash }
    {
        self.cataloguing.hash
    }

    fn row(&mut self) -> Result<FileRow, Stop>
        ensures ends { IfOk result
            (λ row. self.new.last.outcome ≡ outcome_by row self.new.last.faults) }
        ensures same { self.new.session.ghost_name ≡ self.old.session.ghost_name }
    {
        if !self.is_picture()? {
            self.last.outcome = None;
            return Ok(FileRow::NoPicture);
        }
        let options = self.cataloguing.reading.options();
        let row = self
            .last
            .row(self.session.rt, options, self.cataloguing.hash);
        match row {
            Ok(values) => {
                let outcome = self
                    .session
                    .skip_faults(self.last.shown.as_str(), self.last.faults)?;
                self.last.outcome = Some(outcome);
                Ok(FileRow::Values(values))
            }
            Err(Error::OutOfMemory) => Err(Stop::OutOfMemory),
            Err(error) => {
                self.last.outcome = Some(self.session.refuse(self.last.shown.as_str(), &error)?);
                Ok(FileRow::Unreadable)
            }
        }
    }

    fn is_whole(&self, root: &str) -> bool
        ensures { result ≡ is_whole self.now.has_conditions
            (map string_bytes self.now.failed.items) root.now }
    {
        is_whole(self.has_conditions, self.failed.as_slice(), root)
    }
}
