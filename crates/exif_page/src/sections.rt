//! The sections of a page, one for each day.

ghost use Rattle.std.specs.Prelude.{◌≡◌, ◌++◌, OnOk};
ghost use Rattle.exif_page.specs.Sections.{closing, is_same, opening, section_of, start};

use crate::entries::Entry;
use crate::escaping::push_between;
use std::alloc::AllocError;

/// The section of a page that is open.
#[derive(Clone, Copy)]
pub enum Section<'a> {
    /// No section: nothing was written yet.
    Closed,
    /// The section of a day.
    Day(&'a str),
    /// The section of the pictures without a day.
    Undated,
}

/// The section that an entry belongs to: that of its day.
pub fn section_of<'a>(entry: &Entry<'a>) -> Section<'a>
    ensures { result ≡ section_of entry.now }
{
    match entry.day {
        Some(day) => Section::Day(day),
        None => Section::Undated,
    }
}

// Whether both are the same section, and it is open.
fn is_same(before: Section, next: Section) -> bool
    ensures { result ≡ is_same before.entry next.entry }
{
    match (before, next) {
        (Section::Day(before), Section::Day(next)) => before == next,
        (Section::Undated, Section::Undated) => true,
        _ => false,
    }
}

// Appends the end of a section.
#[tactic(auto, unfolding(crate::specs::Sections::closing))]
pub(crate) fn push_closing(out: &mut Vec<u8>, before: Section) -> Result<(), AllocError>
    ensures { OnOk result (out.new.items ≡ out.old.items ++ closing before.entry) }
{
    match before {
        Section::Closed => Ok(()),
        _ => out.extend_from_slice(b"</ul>\n</section>\n"),
    }
}

// Appends the beginning of a section: its heading, and a place for the number of its pictures.
#[tactic(auto, unfolding(crate::specs::Sections::start))]
fn push_start(out: &mut Vec<u8>, next: Section) -> Result<(), AllocError>
    ensures { OnOk result (out.new.items ≡ out.old.items ++ start next.entry) }
{
    match next {
        Section::Closed => Ok(()),
        Section::Day(day) => push_between(
            out,
            b"<section>\n<h2>",
            day.as_bytes(),
            b" <span></span></h2>\n<ul>\n",
        ),
        Section::Undated => {
            out.extend_from_slice(b"<section>\n<h2>Without a date <span></span></h2>\n<ul>\n")
        }
    }
}

// Appends what lies between two entries: nothing where the section goes on.
#[tactic(auto, unfolding(crate::specs::Sections::opening))]
pub(crate) fn push_opening(
    out: &mut Vec<u8>,
    before: Section,
    next: Section,
) -> Result<(), AllocError>
    ensures { OnOk result (out.new.items ≡ out.old.items ++ opening before.entry next.entry) }
{
    if is_same(before, next) {
        return Ok(());
    }
    push_closing(out, before)?;
    push_start(out, next)
}
