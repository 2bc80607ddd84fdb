//! A page that shows the pictures of a catalogue.

ghost use Rattle.std.specs.Prelude.{◌≡◌, ◌⊎◌, ◌++◌, List, IfOk, IsSome, OnOk, codes, string_bytes};
ghost use Rattle.exif_catalog_file.specs.Shown.{row_texts};
ghost use Rattle.exif_decisions.specs.Paths.{slash_after};
ghost use Rattle.exif_files.specs.declared.outcome.Status.TheVariants.{Incomplete, Success};
ghost use Rattle.exif_page.specs.Pages.{page_html};
ghost use Rattle.exif_page.specs.declared.entries.Entry.{Entry};
ghost use Rattle.exif_gathering.specs.Pages.{AddsEntry, AddsPicture, IsWhole, last_as, section_as, visit_refusal};

use crate::cards::{facts_of, found_in, shown};
use exif::Sink;
use exif_catalog_file::{CatalogError, PictureRow, RunError, Visitor, visit};
use exif_decisions::slash_after;
use exif_files::Status;
use exif_inputs::{Console, thumbnail_of};
use exif_page::{
    Entry, Section, end_html, entry_html, entry_of, foot_html, head_html, link_to, section_of,
    texts_of, thumbnail_html,
};
use exif_thumbnails::Thumbnail;
use std::alloc::{AllocError, Global};

// The page as far as it goes.
#[derive(Drop)]
struct Parts {
    html: Vec<u8>,
    // the data of the thumbnails so far, which are behind all entries
    thumbnails: Vec<u8>,
    section: LastSection,
    worst: Status,
}

// What shows the pictures.
#[derive(Drop)]
struct Page<'t, 'p, 'r, E> {
    rt: &'t HostRuntime,
    console: &'p mut Console<'r, E>,
    // the folder of the page, which ends with a slash
    folder: String,
    parts: Parts,
}

// The section that is open.
#[derive(Drop)]
enum LastSection {
    Closed,
    Day(String),
    Undated,
}

impl LastSection {
    fn section(&self) -> Section<'_>
        ensures { section_as result ≡ last_as self.now }
    {
        match self {
            LastSection::Closed => Section::Closed,
            LastSection::Day(day) => Section::Day(day.as_str()),
            LastSection::Undated => Section::Undated,
        }
    }

    fn of(alloc: Global, section: Section<'_>) -> Result<LastSection, AllocError>
        ensures { IfOk result (λ last. last_as last ≡ section_as section.entry) }
    {
        match section {
            Section::Closed => Ok(LastSection::Closed),
            Section::Day(day) => Ok(LastSection::Day(String::from_str(alloc, day)?)),
            Section::Undated => Ok(LastSection::Undated),
        }
    }
}

impl Parts {
    // Adds the entry of a picture.
    fn add(&mut self, alloc: Global, entry: &Entry<'_>) -> Result<(), AllocError>
        ensures { OnOk result (AddsEntry self.old entry.now self.new) }
    {
        let html = entry_html(alloc, self.section.section(), entry)?;
        self.html.extend_from_slice(html.as_slice())?;
        let data = thumbnail_html(alloc, entry.thumbnail)?;
        self.thumbnails.extend_from_slice(data.as_slice())?;
        self.section = LastSection::of(alloc, section_of(entry))?;
        Ok(())
    }

    // The whole page: the entries, the foot, the data of the thumbnails and the end.
    fn whole(self, alloc: Global) -> Result<Vec<u8>, AllocError>
        ensures { IfOk result (λ page. IsWhole self page.items) }
    {
        let foot = foot_html(alloc, self.section.section())?;
        let end = end_html(alloc)?;
        joined(
            self.html,
            foot.as_slice(),
            self.thumbnails.as_slice(),
            end.as_slice(),
        )
    }
}

// The entries, and what is behind them.
fn joined(
    mut html: Vec<u8>,
    foot: &[u8],
    thumbnails: &[u8],
    end: &[u8],
) -> Result<Vec<u8>, AllocError>
    ensures { IfOk result
        (λ page. page.items ≡ html.items ++ (foot.now ++ (thumbnails.now ++ end.now))) }
{
    html.extend_from_slice(foot)?;
    html.extend_from_slice(thumbnails)?;
    html.extend_from_slice(end)?;
    Ok(html)
}

impl<E: Sink> Page<'_, '_, '_, E> {
    // The thumbnail in a file, if it has one. A file that can't be read is reported.
    fn thumbnail_in(&mut self, path: &str) -> Result<Option<Thumbnail>, AllocError>
        ensures worst { (self.new.parts.worst ≡ self.old.parts.worst)
            ⊎ (self.new.parts.worst ≡ Incomplete) }
        ensures found { IfOk result
            (λ found. IsSome found → self.new.parts.worst ≡ self.old.parts.worst) }
        ensures parts { self.new.parts
            ≡ record self.old.parts { worst = self.new.parts.worst } }
    {
        match found_in(thumbnail_of(self.rt, path))? {
            Ok(found) => Ok(found),
            Err(error) => {
                self.console.say(path, &error);
                self.parts.worst = Status::Incomplete;
                Ok(None)
            }
        }
    }
}

impl<E: Sink> Visitor for Page<'_, '_, '_, E> {
    type Error = AllocError;

    ghost visits = { λ old row new. AddsPicture old.parts row new.parts };

    fn visit(&mut self, picture: &PictureRow<'_>) -> Result<(), AllocError>
        ensures visited { OnOk result
            (AddsPicture self.old.parts (row_texts picture.now) self.new.parts) }
    {
        let alloc = self.rt.alloc();
        let found = self.thumbnail_in(picture.path)?;
        let link = link_to(alloc, self.folder.as_str(), picture.path)?;
        let facts = facts_of(picture, link.as_str());
        let texts = texts_of(alloc, &facts)?;
        let entry = entry_of(&facts, &texts, shown(&found));
        self.parts.add(alloc, &entry)
    }
}

// Why no page was made: the catalogue was refused, or memory ran out.
fn visit_refusal(error: RunError<AllocError>) -> CatalogError
    ensures { result ≡ visit_refusal error }
{
    match error {
        RunError::Catalog(error) => error,
        RunError::Caller(_memory) => CatalogError::OutOfMemory,
    }
}

// A folder that ends with a slash.
fn with_slash(mut folder: String) -> Result<String, AllocError>
    ensures { IfOk result (λ text. string_bytes text
        ≡ string_bytes folder ++ slash_after (string_bytes folder)) }
{
    let slash = slash_after(folder.as_str());
    folder.push_str(slash)?;
    Ok(folder)
}

/// A page with the pictures of a catalogue, to be written to a folder, and the worst status of a
/// picture: incomplete where one could not be read for its thumbnail, which is reported. There is
/// no page where the catalogue is refused or memory runs out. It takes twice the memory of the page.
pub fn page_of<E: Sink>(
    rt: &HostRuntime,
    database: &str,
    folder: String,
    console: &mut Console<'_, E>,
) -> Result<(Vec<u8>, Status), CatalogError>
    ensures page { IfOk result (λ page. (entries : List Entry)
        × (page.0.items ≡ page_html (codes "Pictures") entries)) }
    ensures worst { IfOk result
        (λ page. (page.1 ≡ Success) ⊎ (page.1 ≡ Incomplete)) }
{
    let parts = Parts {
        html: head_html(rt.alloc(), "Pictures")?,
        thumbnails: Vec::new(rt.alloc()),
        section: LastSection::Closed,
        worst: Status::Success,
    };
    let mut page = Page {
        rt,
        console,
        folder: with_slash(folder)?,
        parts,
    };
    visit(rt, database, &mut page).map_err(visit_refusal)?;
    let Page { parts, .. } = page;
    let worst = parts.worst;
    Ok((parts.whole(rt.alloc())?, worst))
}
