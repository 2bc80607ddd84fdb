//! What a run did with the rows.

ghost use Rattle.std.specs.Prelude.{◌≡◌};
ghost use Rattle.exif_catalog.specs.Totals.{counted, marked, more, moved, outcome_of};

/// What became of the row of a picture.
#[derive(Clone, Copy, Debug, PartialEq, Eq)]
pub enum Outcome {
    /// The picture had none, and has one now.
    Added,
    /// It was written anew.
    Changed,
    /// The file had the stamp of its row, which stays.
    Unchanged,
    /// The caller has no values for it: a row that it had stays.
    Refused,
}

/// What a run did with the rows.
#[derive(Clone, Copy, Debug, PartialEq, Eq)]
pub struct Totals {
    /// Pictures that had no row, and whose files were not moved.
    pub added: u64,
    /// Pictures whose files were moved: the row has the new path.
    pub moved: u64,
    /// Pictures whose rows were written anew, since the file has another stamp.
    pub changed: u64,
    /// Pictures whose files had the stamps of their rows.
    pub unchanged: u64,
    /// Pictures that the caller had no values for.
    pub refused: u64,
    /// Rows that were marked as removed: their files are no longer there.
    pub removed: u64,
    /// Rows whose mark was taken off: their files are there again.
    pub restored: u64,
}

/// What becomes of a row that is written, by whether there was one.
pub(crate) fn outcome_of(had_row: bool) -> Outcome
    ensures { result ≡ outcome_of had_row }
{
    if had_row {
        Outcome::Changed
    } else {
        Outcome::Added
    }
}

// One more, up to the greatest number.
fn more(number: u64) -> u64
    ensures { result ≡ more number }
{
    number.saturating_add(1)
}

impl Totals {
    /// Nothing yet.
    pub(crate) const NONE: Totals = Totals {
        added: 0,
        moved: 0,
        changed: 0,
        unchanged: 0,
        refused: 0,
        removed: 0,
        restored: 0,
    };

    /// The same with one picture more.
    pub(crate) fn counted(mut self, outcome: Outcome) -> Totals
        ensures { result ≡ counted self outcome }
    {
        match outcome {
            Outcome::Added => self.added = more(self.added),
            Outcome::Changed => self.changed = more(self.changed),
            Outcome::Unchanged => self.unchanged = more(self.unchanged),
            Outcome::Refused => self.refused = more(self.refused),
        }
        self
    }

    /// The same with one row more that is marked as removed, or whose mark is taken off.
    pub(crate) fn marked(mut self, is_removed: bool) -> Totals
        ensures { result ≡ marked self is_removed }
    {
        if is_removed {
            self.removed = more(self.removed);
        } else {
            self.restored = more(self.restored);
        }
        self
    }

    /// The same where a picture that counts as added was moved.
    pub(crate) fn moved(mut self) -> Totals
        ensures { result ≡ moved self }
    {
        self.added = self.added.saturating_sub(1);
        self.moved = more(self.moved);
        self
    }
}
