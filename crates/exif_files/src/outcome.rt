//! What becomes of files, and of a run.

ghost use Rattle.std.specs.Prelude.{◌≡◌};
ghost use Rattle.exif_files.specs.Statuses.{worse, code};

/// What became of a file, from the best to the worst.
#[derive(Clone, Copy, PartialEq, Eq)]
pub enum Status {
    /// All that was requested was done.
    Success,
    /// So it was, but something was skipped or left undone, and reported.
    Incomplete,
    /// The file was refused.
    Refused,
}

impl Status {
    /// The worse of two.
    pub fn or_worse(self, other: Status) -> Status
        ensures { result ≡ worse self other }
    {
        match (self, other) {
            (Status::Refused, _) | (_, Status::Refused) => Status::Refused,
            (Status::Incomplete, _) | (_, Status::Incomplete) => Status::Incomplete,
            (Status::Success, Status::Success) => Status::Success,
        }
    }

    /// The status that a program ends with: 0, 3 or 1.
    pub fn code(self) -> u8
        ensures { result ≡ code self }
    {
        match self {
            Status::Success => 0,
            Status::Incomplete => 3,
            Status::Refused => 1,
        }
    }
}
