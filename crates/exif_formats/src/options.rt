//! How a picture is read.

ghost use Rattle.std.specs.Prelude.{◌≡◌};

use exif_reader::Reader;

/// How a picture is read.
#[derive(Clone, Copy, Debug)]
pub struct Options {
    /// Whether soft faults are skipped, as by
    /// [`Reader::continue_on_error`](exif_reader::Reader::continue_on_error).
    pub lenient: bool,
    /// How many directory entries are visited at most, if there is a limit.
    pub limit: Option<u64>,
}

impl Options {
    /// The reader with these options.
    pub(crate) fn reader(self) -> Reader
        ensures { result ≡ record { lenient = self.lenient; limit = self.limit } }
    {
        let mut reader = Reader::new();
        reader.continue_on_error(self.lenient);
        if let Some(limit) = self.limit {
            reader.limit_entries(limit);
        }
        reader
    }
}
