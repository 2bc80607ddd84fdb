//! Why a TIFF file is not scrubbed.

ghost use Rattle.std.specs.Prelude.{Some};

use std::fmt;

/// Why a TIFF file is not scrubbed.
#[derive(Clone, Copy, Debug, PartialEq, Eq)]
pub enum Fault {
    /// It has no TIFF header.
    NoHeader,
    /// A directory, a value, a strip or a tile leads out of the file, or has no length.
    Broken,
    /// It has more than 1,000 directories in a row: they may go in a circle.
    TooManyDirectories,
    /// Its directories, values or strips share bytes, so that the new file would say something else.
    SharedBytes,
    /// It is a raw file: DNG, or a picture in a camera's own encoding.
    Raw,
    /// Its directories are nested, or its picture is stored in a way that is not known.
    NotSupported,
    /// A tag that describes a picture is there twice, or has values of another type or count.
    OddTag,
}

impl fmt::Display for Fault {
    ghost use Rattle.exif_scrub.specs.TiffFaultTexts.{fault_text};

    ghost output = { λ fault. Some (fault_text fault) };

    fn fmt<W: fmt::Write>(&self, f: &mut fmt::Formatter<W>) -> fmt::Result {
        f.write_str(match self {
            Fault::NoHeader => "no TIFF header",
            Fault::Broken => "data of the picture lead out of the file",
            Fault::TooManyDirectories => "too many directories",
            Fault::SharedBytes => "data of the picture share bytes with each other",
            Fault::Raw => {
                "only the locations of a raw file can be taken out; export a picture and scrub that"
            }
            Fault::NotSupported => "the picture is stored in a way that is not supported",
            Fault::OddTag => {
                "a tag that describes the picture is there twice, or of another type or length"
            }
        })
    }
}
