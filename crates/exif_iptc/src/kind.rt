//! What the values of datasets are.

/// What the value of a dataset is, by the standard.
#[derive(Clone, Copy, Debug, PartialEq, Eq)]
pub enum Kind {
    /// Characters, also digits that are no date and no time.
    Text,
    /// A binary number, its most significant byte first.
    Number,
    /// A date, `CCYYMMDD`.
    Date,
    /// A time with its offset from UTC, `HHMMSS±HHMM`.
    Time,
    /// Bytes of any meaning.
    Bytes,
}
