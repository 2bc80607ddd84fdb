//! What `scrub` removes, by its options.

ghost use Rattle.std.specs.Prelude.{◌≡◌};
ghost use Rattle.exif_session.specs.Scrubs.{color_by, option_name, removed_by, scrub_for};

use crate::request::Change;
use exif_change::{Color, Removed, Unread};

/// An option of `scrub`.
#[derive(Clone, Copy)]
pub enum ScrubOption {
    /// The orientation stays.
    KeepOrientation,
    /// The colour profile goes too.
    StripColor,
    /// Only locations are erased.
    LocationsOnly,
    /// With that, XMP and IPTC that can't be read are overwritten.
    ForceBlank,
}

impl ScrubOption {
    /// Its long name on a command line, without the dashes.
    pub fn name(self) -> &'static str
        ensures { result.now ≡ option_name self }
    {
        match self {
            ScrubOption::KeepOrientation => "keep-orientation",
            ScrubOption::StripColor => "strip-color",
            ScrubOption::LocationsOnly => "locations-only",
            ScrubOption::ForceBlank => "force-blank",
        }
    }
}

/// Which options of `scrub` are given.
#[derive(Clone, Copy)]
pub struct ScrubOptions {
    /// Whether the orientation stays.
    pub keep_orientation: bool,
    /// Whether the colour profile goes too.
    pub strip_color: bool,
    /// Whether only locations are erased.
    pub locations_only: bool,
    /// Whether what can't be read is overwritten then.
    pub force_blank: bool,
}

impl ScrubOptions {
    // What is removed.
    fn removed(self) -> Removed
        ensures { result ≡ removed_by self }
    {
        if self.locations_only {
            let unread = if self.force_blank {
                Unread::Blank
            } else {
                Unread::Keep
            };
            return Removed::Gps(unread);
        }
        if self.keep_orientation {
            Removed::AllButOrientation
        } else {
            Removed::Metadata
        }
    }

    // What becomes of the colour profile.
    fn color(self) -> Color
        ensures { result ≡ color_by self.strip_color }
    {
        if self.strip_color {
            Color::Strip
        } else {
            Color::Keep
        }
    }

    /// The change that the options ask for: all metadata go, or all but the orientation, or only
    /// locations. Nothing where something is to be overwritten, but not only locations erased.
    pub fn change<'a>(self) -> Option<Change<'a>>
        ensures { result ≡ scrub_for self }
    {
        if self.force_blank && !self.locations_only {
            return None;
        }
        Some(Change::Scrub(self.removed(), self.color()))
    }
}
