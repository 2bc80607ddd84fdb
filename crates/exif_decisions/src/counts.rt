//! How many files were processed, refused and skipped.

ghost use Rattle.std.specs.Prelude.{◌≡◌};
ghost use Rattle.exif_files.specs.Statuses.{worse};
ghost use Rattle.exif_decisions.specs.Tallies.{counted, counted_format, counted_kind, counted_sidecar, no_counts, no_formats, no_sidecars, one_more, skipped, skipped_count, status_in};
ghost use Rattle.exif_decisions.specs.Outcomes.{status_for};

use crate::endings::Ending;
use crate::formats::Unsupported;
use crate::found::{Found, NotRead};
use crate::outcome::Outcome;
use exif_files::Status;

/// How many files were processed, refused and skipped.
#[derive(Clone, Copy)]
pub struct Counts {
    /// Those with which something was done.
    pub done: u64,
    /// Those of these with which not all was done.
    pub partial: u64,
    /// Those that were as requested already.
    pub current: u64,
    /// Those with which nothing was done.
    pub unchanged: u64,
    /// Those that were refused.
    pub refused: u64,
    /// Pictures, videos, documents and sidecars that were found in folders and not read.
    pub not_read: u64,
    /// Other files that were found in folders.
    pub others: u64,
    /// Links that were found in folders.
    pub links: u64,
    /// Files of the program's own that were found in folders.
    pub own: u64,
    /// What became, at worst, of what is no file of the run: a track, a catalogue, a folder.
    pub beside: Status,
    /// Of those that were not read: by formats that are not supported.
    pub formats: FormatCounts,
    /// Of those that were not read: damaged or empty ones.
    pub damaged: u64,
    /// Of those that were not read: sidecars.
    pub sidecars: SidecarCounts,
}

/// How many files have a format that is known, and not read.
#[derive(Clone, Copy)]
pub struct FormatCounts {
    /// GIF files.
    pub gif: u64,
    /// BMP files.
    pub bmp: u64,
    /// Photoshop files.
    pub psd: u64,
    /// Raw files.
    pub raw: u64,
    /// Videos.
    pub video: u64,
    /// JPEG 2000 files.
    pub jpeg2000: u64,
    /// BigTIFF files.
    pub big_tiff: u64,
    /// SVG files.
    pub svg: u64,
    /// PDF files.
    pub pdf: u64,
}

/// How many files are sidecars.
#[derive(Clone, Copy)]
pub struct SidecarCounts {
    /// XMP packets.
    pub xmp: u64,
    /// Edits of Apple's.
    pub aae: u64,
    /// Thumbnails of videos.
    pub thm: u64,
}

impl Counts {
    /// No file.
    pub fn new() -> Counts
        ensures { result ≡ no_counts }
    {
        Counts {
            done: 0,
            partial: 0,
            current: 0,
            unchanged: 0,
            refused: 0,
            not_read: 0,
            others: 0,
            links: 0,
            own: 0,
            beside: Status::Success,
            formats: FormatCounts::new(),
            damaged: 0,
            sidecars: SidecarCounts::new(),
        }
    }

    /// One more file that was processed, or refused.
    pub fn add(&mut self, outcome: Outcome)
        ensures counts { self.new ≡ counted outcome self.old }
        ensures status { status_in self.new ≡ worse (status_in self.old) (status_for outcome) }
    {
        match outcome {
            Outcome::Done => self.done = self.done.saturating_add(1),
            Outcome::Partial => {
                self.done = self.done.saturating_add(1);
                self.partial = self.partial.saturating_add(1);
            }
            Outcome::Current => self.current = self.current.saturating_add(1),
            Outcome::Unchanged => self.unchanged = self.unchanged.saturating_add(1),
            Outcome::Refused => self.refused = self.refused.saturating_add(1),
        }
    }

    /// What became of something that is no file of the run.
    pub fn add_beside(&mut self, status: Status)
        ensures { self.new ≡ record self.old { beside = worse self.old.beside status } }
    {
        self.beside = self.beside.or_worse(status);
    }

    /// The status of the run: refused where a file was, incomplete where with one not all was done,
    /// or one was not read; and not better than what became of things beside the files.
    pub fn status(&self) -> Status
        ensures { result ≡ status_in self.now }
    {
        let files = if self.refused > 0 {
            Status::Refused
        } else if self.partial > 0 || self.unchanged > 0 || self.not_read > 0 {
            Status::Incomplete
        } else {
            Status::Success
        };
        files.or_worse(self.beside)
    }

    /// How many files that were found in folders were skipped.
    pub fn skipped(&self) -> u64
        ensures { result ≡ skipped_count self.now }
    {
        self.not_read
            .saturating_add(self.others)
            .saturating_add(self.links)
            .saturating_add(self.own)
    }

    /// One more file that was found in a folder, and is skipped unless it is a picture.
    pub fn skip(&mut self, found: Found)
        ensures { self.new ≡ skipped found self.old }
    {
        match found {
            Found::Picture => {}
            Found::Other => self.others = self.others.saturating_add(1),
            Found::NotRead(why) => {
                self.not_read = self.not_read.saturating_add(1);
                self.count_by_kind(why);
            }
        }
    }

    /// One more link that was found in a folder.
    pub fn skip_link(&mut self)
        ensures { self.new ≡ record self.old { links = one_more self.old.links } }
    {
        self.links = self.links.saturating_add(1);
    }

    /// One more file of the program's own that was found in a folder.
    pub fn skip_own(&mut self)
        ensures { self.new ≡ record self.old { own = one_more self.old.own } }
    {
        self.own = self.own.saturating_add(1);
    }

    // One more file that was not read, by its kind.
    fn count_by_kind(&mut self, why: NotRead)
        ensures { self.new ≡ counted_kind why self.old }
    {
        match why {
            NotRead::Damaged(_) | NotRead::Empty(_) => self.damaged = self
                .damaged
                .saturating_add(1),
            NotRead::Format(format) => self.formats.add(format),
            NotRead::Sidecar(ending) => self.sidecars.add(ending),
        }
    }
}

impl FormatCounts {
    // No file.
    fn new() -> FormatCounts
        ensures { result ≡ no_formats }
    {
        FormatCounts {
            gif: 0,
            bmp: 0,
            psd: 0,
            raw: 0,
            video: 0,
            jpeg2000: 0,
            big_tiff: 0,
            svg: 0,
            pdf: 0,
        }
    }

    // One more file of a format.
    fn add(&mut self, format: Unsupported)
        ensures { self.new ≡ counted_format format self.old }
    {
        match format {
            Unsupported::Gif => self.gif = self.gif.saturating_add(1),
            Unsupported::Bmp => self.bmp = self.bmp.saturating_add(1),
            Unsupported::Psd => self.psd = self.psd.saturating_add(1),
            Unsupported::Raw => self.raw = self.raw.saturating_add(1),
            Unsupported::Video => self.video = self.video.saturating_add(1),
            Unsupported::Jpeg2000 => self.jpeg2000 = self.jpeg2000.saturating_add(1),
            Unsupported::BigTiff => self.big_tiff = self.big_tiff.saturating_add(1),
            Unsupported::Svg => self.svg = self.svg.saturating_add(1),
            Unsupported::Pdf => self.pdf = self.pdf.saturating_add(1),
        }
    }
}

impl SidecarCounts {
    // No file.
    fn new() -> SidecarCounts
        ensures { result ≡ no_sidecars }
    {
        SidecarCounts {
            xmp: 0,
            aae: 0,
            thm: 0,
        }
    }

    // One more sidecar, by its ending; other files are none.
    fn add(&mut self, ending: Ending)
        ensures { self.new ≡ counted_sidecar ending self.old }
    {
        match ending {
            Ending::Xmp => self.xmp = self.xmp.saturating_add(1),
            Ending::Aae => self.aae = self.aae.saturating_add(1),
            Ending::Thm => self.thm = self.thm.saturating_add(1),
            _ => {}
        }
    }
}
