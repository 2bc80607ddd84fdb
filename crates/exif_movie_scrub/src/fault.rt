//! Why a video is not scrubbed.

ghost use Rattle.std.specs.Prelude.{Some};

use exif_movie::Refusal;
use std::fmt;

/// Why a video is not scrubbed.
#[derive(Clone, Copy, Debug, PartialEq, Eq)]
pub enum Fault {
    /// Its parts are not listed. It stays as it was.
    NotListed(Refusal),
    /// Read again, it has metadata, or is no video. Its metadata are zeros already.
    Unstable,
}

impl fmt::Display for Fault {
    ghost use Rattle.exif_movie_scrub.specs.Texts.{fault_text};

    ghost output = { λ fault. Some (fault_text fault) };

    fn fmt<W: fmt::Write>(&self, f: &mut fmt::Formatter<W>) -> fmt::Result {
        match self {
            Fault::NotListed(refusal) => write!(f, "{refusal}"),
            Fault::Unstable => f.write_str("the video has more metadata once these are taken out"),
        }
    }
}
