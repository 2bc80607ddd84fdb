//! A whole page, or its parts one after another.

ghost use Rattle.std.specs.Prelude.{◌≡◌, ◌++◌, IfOk, OnOk};
ghost use Rattle.exif_page.specs.Pages.{end_html, entries_html, entry_html, foot_html, head_html, page_html};
ghost use Rattle.exif_page.specs.Thumbnails.{thumbnail_html, thumbnails_html};
ghost use Rattle.exif_page.specs.declared.sections.Section.TheVariants.{Closed};

use crate::cards::push_card;
use crate::entries::{Entry, Thumbnail};
use crate::escaping::push_between;
use crate::markup::{push_beginning, push_ending, push_filters, push_script, push_style};
use crate::sections::{Section, push_closing, push_opening, section_of};
use crate::thumbnails::push_thumbnail;
use std::alloc::{AllocError, Global};

// Appends the part before the first entry.
#[tactic(auto, unfolding(crate::specs::Pages::head_html))]
fn push_head(out: &mut Vec<u8>, title: &str) -> Result<(), AllocError>
    ensures { OnOk result (out.new.items ≡ out.old.items ++ head_html title.now) }
{
    push_beginning(out)?;
    push_between(out, b"<title>", title.as_bytes(), b"</title>\n")?;
    push_style(out)?;
    push_between(out, b"<h1>", title.as_bytes(), b"</h1>\n")?;
    push_filters(out)
}

// Appends an entry, after what ends the open section and begins its own.
#[tactic(auto, unfolding(crate::specs::Pages::entry_html))]
fn push_entry(out: &mut Vec<u8>, before: Section, entry: &Entry) -> Result<(), AllocError>
    ensures { OnOk result (out.new.items ≡ out.old.items ++ entry_html before.entry entry.now) }
{
    push_opening(out, before, section_of(entry))?;
    push_card(out, entry)
}

// Appends the part between the last entry and the data of the thumbnails.
#[tactic(auto, unfolding(crate::specs::Pages::foot_html))]
fn push_foot(out: &mut Vec<u8>, before: Section) -> Result<(), AllocError>
    ensures { OnOk result (out.new.items ≡ out.old.items ++ foot_html before.entry) }
{
    push_closing(out, before)?;
    push_script(out)
}

// Appends the entries, one after another, and the part behind them.
fn push_entries(out: &mut Vec<u8>, entries: &[Entry]) -> Result<(), AllocError>
    ensures { OnOk result (out.new.items ≡ out.old.items ++ entries_html Closed entries.now) }
{
    let mut before = Section::Closed;
    for entry in entries {
        push_entry(out, before, entry)?;
        before = section_of(entry);
    }
    push_foot(out, before)?;
    Ok(())
}

// Appends the data of the thumbnails.
#[tactic(auto, unfolding(crate::specs::Thumbnails::thumbnails_html))]
fn push_thumbnails(alloc: Global, out: &mut Vec<u8>, entries: &[Entry]) -> Result<(), AllocError>
    ensures { OnOk result (out.new.items ≡ out.old.items ++ thumbnails_html entries.now) }
{
    for entry in entries {
        push_thumbnail(alloc, out, entry.thumbnail)?;
    }
    Ok(())
}

/// The part of a page before its first entry, with the title, the style and the filters. An error
/// is out of memory.
pub fn head_html(alloc: Global, title: &str) -> Result<Vec<u8>, AllocError>
    ensures { IfOk result (λ html. html.items ≡ head_html title.now) }
{
    let mut out = Vec::new(alloc);
    push_head(&mut out, title)?;
    Ok(out)
}

/// The part of a page that shows an entry. `before` is the section that the entry before is in
/// ([`section_of`]), or `Section::Closed` for the first one. An error is out of memory.
pub fn entry_html(alloc: Global, before: Section, entry: &Entry) -> Result<Vec<u8>, AllocError>
    ensures { IfOk result (λ html. html.items ≡ entry_html before.entry entry.now) }
{
    let mut out = Vec::new(alloc);
    push_entry(&mut out, before, entry)?;
    Ok(out)
}

/// The part of a page between its last entry and the data of the thumbnails, with the script.
/// `before` is the section that the last entry is in, or `Section::Closed` where there is none. An
/// error is out of memory.
pub fn foot_html(alloc: Global, before: Section) -> Result<Vec<u8>, AllocError>
    ensures { IfOk result (λ html. html.items ≡ foot_html before.entry) }
{
    let mut out = Vec::new(alloc);
    push_foot(&mut out, before)?;
    Ok(out)
}

/// The data of the thumbnail of an entry, which are behind the foot, in the order of the entries.
/// It takes about three times the memory of the thumbnail while it runs. An error is out of memory.
pub fn thumbnail_html(alloc: Global, thumbnail: Thumbnail) -> Result<Vec<u8>, AllocError>
    ensures { IfOk result (λ html. html.items ≡ thumbnail_html thumbnail.entry) }
{
    let mut out = Vec::new(alloc);
    push_thumbnail(alloc, &mut out, thumbnail)?;
    Ok(out)
}

/// The end of a page, behind the data of the last thumbnail. An error is out of memory.
pub fn end_html(alloc: Global) -> Result<Vec<u8>, AllocError>
    ensures { IfOk result (λ html. html.items ≡ end_html) }
{
    let mut out = Vec::new(alloc);
    push_ending(&mut out)?;
    Ok(out)
}

/// A whole page, in UTF-8: the head, each entry in turn, the foot, the data of each thumbnail and
/// the end. Entries of one day have one section where they follow each other, so sort them by day.
/// All is in memory, so write a large page by its parts. An error is out of memory.
#[tactic(auto, unfolding(crate::specs::Pages::page_html))]
pub fn page_html(alloc: Global, title: &str, entries: &[Entry]) -> Result<Vec<u8>, AllocError>
    ensures { IfOk result (λ html. html.items ≡ page_html title.now entries.now) }
{
    let mut out = Vec::new(alloc);
    push_head(&mut out, title)?;
    push_entries(&mut out, entries)?;
    push_thumbnails(alloc, &mut out, entries)?;
    push_ending(&mut out)?;
    Ok(out)
}
