//! Numbers of the directories in a chain (TIFF 6.0, section 2, "Multiple images").

ghost use Rattle.std.specs.Prelude.{◌≡◌, ◌++◌, Some, codes, unwrap_or};
ghost use Rattle.std.specs.Fmt.{decimal, spec_align, spec_width};
ghost use Rattle.std.specs.declared.fmt.Alignment.TheVariants.{Left};
ghost use Rattle.exif_text.specs.Pad.{pad};

use crate::pad::write_padded;
use arrayvec::ArrayString;
use itoa::Buffer;
use std::fmt;

/// The number of a directory in its chain, counted from 0 (TIFF 6.0, section 2; Exif 2.32, 4.5.1).
/// The first is shown as `primary`, the second as `thumbnail`, others as `IFD2` and so on. The
/// directories below one of the chain, as that of Exif, have its number.
#[derive(Clone, Copy, Debug, PartialEq, Eq, PartialOrd, Ord, Hash)]
pub struct In(pub u16);

impl In {
    /// The first directory: the image itself.
    pub const PRIMARY: In = In(0);
    /// The second directory: its thumbnail.
    pub const THUMBNAIL: In = In(1);

    /// The number, from 0.
    pub fn index(self) -> u16
        ensures { result ≡ self.0 }
    {
        self.0
    }

    // The name of any but the first two: `IFD` and the number, of at most five digits.
    fn numbered_text(self) -> ArrayString<8>
        ensures { result.bytes ≡ codes "IFD" ++ decimal self.0 }
    {
        let mut text = ArrayString::new();
        text.push_str("IFD");
        text.push_str(Buffer::new().format(self.0));
        text
    }
}

impl fmt::Display for In {
    ghost use Rattle.exif_text.specs.IfdTexts.{ifd_text};

    ghost output = { λ ifd. Some (ifd_text ifd.0) };

    ghost styled_output = { λ ifd spec. Some (pad (ifd_text ifd.0)
        (unwrap_or (spec_width spec) 0) (unwrap_or (spec_align spec) Left)) };

    fn fmt<W: fmt::Write>(&self, f: &mut fmt::Formatter<W>) -> fmt::Result {
        match self.0 {
            0 => write_padded(f, "primary", fmt::Alignment::Left),
            1 => write_padded(f, "thumbnail", fmt::Alignment::Left),
            _ => write_padded(f, self.numbered_text().as_str(), fmt::Alignment::Left),
        }
    }
}
