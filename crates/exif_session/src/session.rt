//! What a run has: the files that wait, and where its answers and messages go.

ghost use Rattle.std.specs.Prelude.{◌≡◌, ℕ, List, false, true, length, map, option_map, reverse, string_bytes, None, Ok, IfOk, OnErr, OnOk};
ghost use Rattle.exif_decisions.specs.Outcomes.{outcome_with};
ghost use Rattle.exif_decisions.specs.Tallies.{counted, counted_current, counted_done, counted_partial, counted_refused, counted_unchanged, no_counts, skipped, status_in};
ghost use Rattle.exif_decisions.specs.declared.outcome.Outcome.TheVariants.{Partial, Refused, Unchanged};
ghost use Rattle.exif_files.specs.Statuses.{code, worse};
ghost use Rattle.exif_files.specs.declared.outcome.Status.TheVariants as status;
ghost use Rattle.exif_session.specs.Counting.{with_beside};
ghost use Rattle.exif_session.specs.Choosing.{IsChosen, IsChosenInFolder};
ghost use Rattle.exif_inputs.specs.Pending.{named, next_file, waiting_of, with_counts, with_names};
ghost use Rattle.exif_session.specs.Tasks.{changes, takes_companions};

use crate::request::Request;
use exif::Sink;
use exif_base::send_all;
use exif_decisions::{Found, FoundStep, Outcome, SkippedFaults, Summary, fate_of};
use exif_files::{Status, folder_of, remove_abandoned};
use exif_inputs::{Console, Next, Pending, found_in_folder, is_chosen};
use std::alloc::{AllocError, AllocFailed};
use std::fmt::{self, Display};
use std::{fs, io};

// How many runs side by side may have been interrupted in a folder: temporary files with the numbers
// below are looked for beside a file that is named.
const MAX_RUNS: u32 = 4;

/// Why a run ended before its last file.
#[derive(Drop)]
pub enum Stop {
    /// Standard output took no more.
    Output(io::Error),
    /// The names in standard input could not be read.
    Input(io::Error),
    /// Out of memory.
    OutOfMemory,
}

impl From<AllocError> for Stop {
    fn from(_e: AllocError) -> Stop {
        Stop::OutOfMemory
    }
}

impl<T: Drop> From<AllocFailed<T>> for Stop {
    fn from(_e: AllocFailed<T>) -> Stop {
        Stop::OutOfMemory
    }
}

/// What is processed.
#[derive(Drop)]
pub enum Item {
    /// Standard input.
    Input,
    /// The file of this name.
    File(String),
}

// Why a temporary file stays.
#[derive(Drop)]
struct CantRemove(io::Error);

impl Display for CantRemove {
    // the text of the system's own error is not known
    ghost output = { λ why. None };

    fn fmt<W: fmt::Write>(&self, f: &mut fmt::Formatter<W>) -> fmt::Result {
        let cause = &self.0;
        write!(f, "a temporary file that can't be removed: {cause}")
    }
}

/// What a run has.
#[derive(Drop)]
pub struct Session<'r, 'a, W, E> {
    /// The program's runtime.
    pub rt: &'r HostRuntime,
    /// What is asked for.
    pub request: &'r Request<'a>,
    /// Where answers go.
    pub out: &'r mut W,
    /// Where messages go.
    pub console: Console<'r, E>,
    /// The files that were not processed yet.
    pub pending: Pending,
    // the folder in which temporary files were looked for last
    cleared: Option<String>,
}

// Adds the names in standard input, if it has some.
fn add_input(rt: &HostRuntime, has_names: bool, pending: &mut Pending) -> Result<(), Stop>
    ensures none { has_names ≡ false → pending.new ≡ pending.old }
    ensures names { has_names ≡ true → OnOk result ((names : List ℕ)
        × (map waiting_of pending.new.waiting.items
        ≡ with_names names (map waiting_of pending.old.waiting.items))) }
    ensures counts { pending.new.counts ≡ pending.old.counts }
{
    if !has_names {
        return Ok(());
    }
    match pending.add_names(rt.alloc(), rt.stdin()) {
        Ok(()) => Ok(()),
        Err(cause) => Err(Stop::Input(cause)),
    }
}

impl<'r, 'a, W: Sink, E: Sink> Session<'r, 'a, W, E> {
    /// A run over the files that are asked for.
    pub fn begin(
        rt: &'r HostRuntime,
        request: &'r Request<'a>,
        shows_progress: bool,
        out: &'r mut W,
        err: &'r mut E,
    ) -> Result<Session<'r, 'a, W, E>, Stop>
        ensures request { IfOk result (λ session. session.request.now ≡ request.now) }
        ensures paths { request.now.names_from_input ≡ false → IfOk result (λ session.
            map waiting_of session.pending.waiting.items
            ≡ reverse (map (λ path. named path.now) request.now.paths.items)) }
        ensures names { request.now.names_from_input ≡ true → IfOk result (λ session.
            (names : List ℕ) × (map waiting_of session.pending.waiting.items ≡ with_names names
            (reverse (map (λ path. named path.now) request.now.paths.items)))) }
        ensures counts { IfOk result (λ session. session.pending.counts ≡ no_counts) }
    {
        let mut pending = Pending::new(rt.alloc(), request.paths.as_slice(), request.recursive)?;
        add_input(rt, request.names_from_input, &mut pending)?;
        let console = Console::new(rt, err, shows_progress && !request.quiet);
        Ok(Session {
            rt,
            request,
            out,
            console,
            pending,
            cleared: None,
        })
    }

    /// Sends what is held back, writes the summary, and answers the status of the program, which
    /// follows from what was counted.
    pub fn finish(&mut self) -> Result<u8, Stop>
        ensures { IfOk result (λ status. status ≡ code (status_in self.old.pending.counts)) }
    {
        self.out.flush().map_err(Stop::Output)?;
        self.console.clear();
        if self.request.recursive && !self.request.quiet {
            let verb = self.request.task.verb();
            let partial = self.request.task.partial();
            let counts = &self.pending.counts;
            let summary = Summary {
                verb,
                partial,
                counts,
            };
            let line = format!(in self.rt.alloc(); "mexaldor: {summary}\n")?;
            self.console.write(line.as_str());
        }
        Ok(self.pending.counts.status().code())
    }

    /// The next file that is to be processed, or standard input. A name that can't be followed is
    /// reported, and counted as refused; a file that is not read is skipped.
    /// None only where nothing waits.
    pub fn next_item(&mut self) -> Result<Option<Item>, Stop>
        ensures none { IfOk result (λ item. item ≡ None
            → length self.new.pending.waiting.items ≡ 0) }
    {
        for _ in 0..u64::MAX {
            match self.next_chosen()? {
                None => return Ok(None),
                Some(Next::Input) => return Ok(Some(Item::Input)),
                Some(Next::Named(path)) => return Ok(Some(Item::File(path))),
                Some(Next::Found(path)) => return Ok(Some(Item::File(path))),
                Some(Next::Beside(path, why)) => self.skip(path.as_str(), Found::NotRead(why))?,
                Some(Next::Failed(path, cause)) => {
                    let outcome = self.refuse(path.as_str(), &cause)?;
                    self.count(outcome);
                }
            }
        }
        Err(Stop::OutOfMemory)
    }

    /// The next file that waits, if there is one, before it is opened: [`chosen`](Session::chosen)
    /// says whether it is processed. None only where nothing waits.
    pub fn next_waiting(&mut self) -> Result<Option<Next>, Stop>
        ensures none { IfOk result (λ next. next ≡ None
            → length self.new.pending.waiting.items ≡ 0) }
    {
        let next = self.pending.next(self.rt)?;
        self.name_temporary()?;
        if let Some(Next::Named(path)) = &next {
            self.clear_beside(path.as_str())?;
        }
        Ok(next)
    }

    /// The next file that is to be processed, if there is one: one that is chosen, and where it was
    /// found in a folder, a picture. Others are skipped: counted, and reported where they are
    /// pictures, videos or documents that are not read. None only where nothing waits.
    pub fn next_chosen(&mut self) -> Result<Option<Next>, Stop>
        ensures none { IfOk result (λ next. next ≡ None
            → length self.new.pending.waiting.items ≡ 0) }
    {
        for _ in 0..u64::MAX {
            let Some(next) = self.next_waiting()? else {
                return Ok(None);
            };
            if let Some(next) = self.chosen(next)? {
                return Ok(Some(next));
            }
        }
        Err(Stop::OutOfMemory)
    }

    // Reports the temporary files that were found. A run that changes files removes those that no
    // other run writes.
    fn name_temporary(&mut self) -> Result<(), Stop>
        ensures waiting { self.new.pending.waiting ≡ self.old.pending.waiting }
        ensures counts { self.new.pending.counts ≡ self.old.pending.counts }
    {
        for _ in 0..self.pending.temporary.len() {
            let Some(path) = self.pending.temporary.pop() else {
                break;
            };
            let path = path.as_str();
            match self.remove_temporary(path) {
                Ok(removed) => self.say(path, &fate_of(removed))?,
                Err(cause) => self.say(path, &CantRemove(cause))?,
            }
        }
        Ok(())
    }

    // Removes what an interrupted run left beside a file that is named, where this run changes
    // files. The folder of the last such file was looked at.
    fn clear_beside(&mut self, path: &str) -> Result<(), Stop>
        ensures { self.new.pending ≡ self.old.pending }
    {
        let folder = folder_of(path);
        if !self.request.task.changes_files() || self.cleared.as_deref() == Some(folder) {
            return Ok(());
        }
        let alloc = self.rt.alloc();
        self.cleared = Some(String::from_str(alloc, folder)?);
        for number in 0..MAX_RUNS {
            let left = format!(in alloc; "{folder}/.mexaldor-{number}")?;
            self.clear_left(left.as_str())?;
        }
        Ok(())
    }

    // Removes a temporary file, if it is there and no run writes it, and reports it.
    fn clear_left(&mut self, path: &str) -> Result<(), Stop>
        ensures { self.new.pending ≡ self.old.pending }
    {
        if fs::symlink_metadata(self.rt, path).is_err() {
            return Ok(());
        }
        match remove_abandoned(self.rt, path) {
            Ok(true) => self.say(path, &fate_of(Some(true))),
            Ok(false) => Ok(()),
            Err(cause) => self.say(path, &CantRemove(cause)),
        }
    }

    // Removes a temporary file that no other run writes, and answers whether it was removed; none
    // where this run changes no files.
    fn remove_temporary(&self, path: &str) -> io::Result<Option<bool>>
        ensures { changes self.now.request.now.task ≡ false → result ≡ Ok None }
    {
        if self.request.task.changes_files() {
            remove_abandoned(self.rt, path).map(Some)
        } else {
            Ok(None)
        }
    }

    /// What is processed of a file that waited: nothing where it is skipped, which is counted and
    /// reported as [`next_chosen`](Session::next_chosen) does.
    pub fn chosen(&mut self, next: Next) -> Result<Option<Next>, Stop>
        ensures chosen { IfOk result (λ kept.
            IsChosen (next_file next) (option_map next_file kept)) }
        ensures waiting { self.new.pending.waiting ≡ self.old.pending.waiting }
    {
        match next {
            Next::Named(path) => {
                if is_chosen(self.rt, &self.request.choice, path.as_str())? {
                    Ok(Some(Next::Named(path)))
                } else {
                    Ok(None)
                }
            }
            Next::Found(path) => self.chosen_in_folder(path),
            Next::Input => Ok(Some(Next::Input)),
            Next::Beside(path, why) => Ok(Some(Next::Beside(path, why))),
            Next::Failed(path, cause) => Ok(Some(Next::Failed(path, cause))),
        }
    }

    // What is processed of a file that was found in a folder.
    fn chosen_in_folder(&mut self, path: String) -> Result<Option<Next>, Stop>
        ensures chosen { IfOk result (λ kept. IsChosenInFolder
            (takes_companions self.old.request.now.task) (string_bytes path)
            self.old.pending.counts self.new.pending.counts (option_map next_file kept)) }
        ensures waiting { self.new.pending.waiting ≡ self.old.pending.waiting }
    {
        let found = found_in_folder(self.rt, path.as_str(), self.request.task.use_of_files());
        match found.step(self.request.task.moves_companions()) {
            FoundStep::Choose => {
                if is_chosen(self.rt, &self.request.choice, path.as_str())? {
                    Ok(Some(Next::Found(path)))
                } else {
                    Ok(None)
                }
            }
            FoundStep::Beside(why) => Ok(Some(Next::Beside(path, why))),
            FoundStep::Skip => {
                self.skip(path.as_str(), found)?;
                Ok(None)
            }
        }
    }

    /// Skips a file that was found in a folder: it is counted, and reported where it is a picture,
    /// a video or a document that is not read.
    pub fn skip(&mut self, path: &str, found: Found) -> Result<(), Stop>
        ensures { self.new.pending ≡ with_counts (skipped found self.old.pending.counts)
            self.old.pending }
    {
        self.pending.counts.skip(found);
        if let Some(why) = found.reported() {
            self.say(path, &why)?;
        }
        Ok(())
    }

    /// Counts a file: what the summary says and the status of the run follow.
    pub fn count(&mut self, outcome: Outcome)
        ensures pending { self.new.pending
            ≡ with_counts (counted outcome self.old.pending.counts) self.old.pending }
        ensures done { self.new.pending.counts.done
            ≡ counted_done outcome self.old.pending.counts.done }
        ensures partial { self.new.pending.counts.partial
            ≡ counted_partial outcome self.old.pending.counts.partial }
        ensures current { self.new.pending.counts.current
            ≡ counted_current outcome self.old.pending.counts.current }
        ensures unchanged { self.new.pending.counts.unchanged
            ≡ counted_unchanged outcome self.old.pending.counts.unchanged }
        ensures refused { self.new.pending.counts.refused
            ≡ counted_refused outcome self.old.pending.counts.refused }
    {
        self.pending.counts.add(outcome);
    }

    /// Counts what became of something that is no file of the run: a track, a catalogue, a folder.
    pub fn count_beside(&mut self, status: Status)
        ensures pending { self.new.pending ≡ with_beside status self.old.pending }
        ensures beside { self.new.pending.counts.beside
            ≡ worse self.old.pending.counts.beside status }
    {
        self.pending.counts.add_beside(status);
    }

    /// Reports why something that is no file of the run was refused, and counts it.
    pub fn refuse_beside<T: Display>(&mut self, path: &str, cause: &T) -> Result<(), Stop>
        ensures pending { OnOk result
            (self.new.pending ≡ with_beside status.Refused self.old.pending) }
        ensures counted { OnOk result (self.new.pending.counts.beside ≡ status.Refused) }
        ensures kept { OnErr result (self.new.pending ≡ self.old.pending) }
    {
        self.say(path, cause)?;
        self.count_beside(Status::Refused);
        Ok(())
    }

    /// Writes an answer.
    pub fn answer(&mut self, bytes: &[u8]) -> Result<(), Stop>
        ensures { self.new.pending ≡ self.old.pending }
    {
        send_all(self.out, bytes).map_err(Stop::Output)
    }

    /// Reports why a file was refused.
    pub fn refuse<T: Display>(&mut self, path: &str, cause: &T) -> Result<Outcome, Stop>
        ensures outcome { IfOk result (λ outcome. outcome ≡ Refused) }
        ensures pending { self.new.pending ≡ self.old.pending }
    {
        self.say(path, cause)?;
        Ok(Outcome::Refused)
    }

    /// Reports why nothing was done with a file.
    pub fn leave<T: Display>(&mut self, path: &str, why: &T) -> Result<Outcome, Stop>
        ensures outcome { IfOk result (λ outcome. outcome ≡ Unchanged) }
        ensures pending { self.new.pending ≡ self.old.pending }
    {
        self.say(path, why)?;
        Ok(Outcome::Unchanged)
    }

    /// Reports what was skipped or left undone in a file.
    pub fn report_partial<T: Display>(&mut self, path: &str, what: &T) -> Result<Outcome, Stop>
        ensures outcome { IfOk result (λ outcome. outcome ≡ Partial) }
        ensures pending { self.new.pending ≡ self.old.pending }
    {
        self.say(path, what)?;
        Ok(Outcome::Partial)
    }

    /// Reports how many faults were skipped in a file that was read, if there were some.
    pub fn skip_faults(&mut self, path: &str, count: usize) -> Result<Outcome, Stop>
        ensures outcome { IfOk result (λ outcome. outcome ≡ outcome_with count) }
        ensures pending { self.new.pending ≡ self.old.pending }
    {
        if count > 0 {
            self.say(path, &SkippedFaults(count))?;
        }
        Ok(Outcome::of_faults(count))
    }

    /// Writes a message about a file, after all answers that were written before.
    pub fn say<T: Display>(&mut self, path: &str, what: &T) -> Result<(), Stop>
        ensures { self.new.pending ≡ self.old.pending }
    {
        self.out.flush().map_err(Stop::Output)?;
        self.console.say(path, what);
        Ok(())
    }
}
