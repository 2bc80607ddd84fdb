//! What became of a file: what the last line of a run counts, and its status follows.

ghost use Rattle.std.specs.Prelude.{◌≡◌};
ghost use Rattle.exif_decisions.specs.Outcomes.{outcome_for, outcome_with};

/// What became of a file.
#[derive(Clone, Copy, PartialEq, Eq)]
pub enum Outcome {
    /// All that was requested was done.
    Done,
    /// It was done, and what was skipped or left undone was reported.
    Partial,
    /// It was as requested already.
    Current,
    /// Nothing was done, and why was reported: the picture has no date, say.
    Unchanged,
    /// The file was refused, and why was reported.
    Refused,
}

impl Outcome {
    /// The outcome of a file with which something was done, by whether something was left undone.
    pub fn of_done(is_complete: bool) -> Outcome
        ensures { result ≡ outcome_for is_complete }
    {
        if is_complete {
            Outcome::Done
        } else {
            Outcome::Partial
        }
    }

    /// The outcome of a file that was read, by how many faults were skipped.
    pub fn of_faults(count: usize) -> Outcome
        ensures { result ≡ outcome_with count }
    {
        Outcome::of_done(count == 0)
    }
}
