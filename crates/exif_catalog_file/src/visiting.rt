//! The pictures of a catalogue, one after the other.

ghost use Rattle.std.specs.Prelude.{◌≡◌, ◌⊎◌, ℕ, List, [], Option, IfErr, IfOk, IsTrue, OnOk, map, option_map, string_bytes};
ghost use Rattle.sqlite.specs.Held.{state};
ghost use Rattle.sqlite.specs.State.{CommitsShowing, HasCleanDisk, Survives};
ghost use Rattle.exif_catalog_file.specs.Errors.{is_hand_error};
ghost use Rattle.exif_catalog_file.specs.Handing.{FailsToHand, HandsEach};
ghost use Rattle.exif_catalog_file.specs.Schema.{pictures_text, shown_columns};
ghost use Rattle.exif_catalog_file.specs.Shown.{AllOf, HandsPicture, IsShown, Shows, ShowsEach, row_texts, text_at, texts_of_row};

use crate::database::{Job, check_tables};
use crate::errors::{CatalogError, RunError, too_many};
use crate::heads::check_existing;
use crate::opening::run_reading;
use crate::schema::pictures_text;
use crate::text::text_of;
use sqlite::types::ValueRef;
use sqlite::{Alter, Connection, Row};
use std::alloc::{AllocError, Global};

/// What a row of the catalogue says of a picture, as texts.
#[derive(Clone, Copy, Debug)]
pub struct PictureRow<'a> {
    /// The path.
    pub path: &'a str,
    /// When it was taken, as `2016-05-04T03:02:01.74+09:00`.
    pub date_taken: Option<&'a str>,
    /// The maker of the camera.
    pub make: Option<&'a str>,
    /// The model of the camera.
    pub model: Option<&'a str>,
    /// The exposure time in seconds, as a decimal number.
    pub exposure_time: Option<&'a str>,
    /// The f-number, as a decimal number.
    pub f_number: Option<&'a str>,
    /// The sensitivity.
    pub iso: Option<&'a str>,
    /// The focal length in millimetres, as a decimal number.
    pub focal_length: Option<&'a str>,
    /// The latitude in degrees, as a decimal number.
    pub latitude: Option<&'a str>,
    /// The longitude in degrees, as a decimal number.
    pub longitude: Option<&'a str>,
    /// The orientation of Exif, as a number.
    pub orientation: Option<&'a str>,
}

/// What is shown the pictures of a catalogue.
pub trait Visitor {
    /// Why it takes no more.
    type Error: Drop;

    /// What it is before a picture, the texts of its row, and what it is once it took it.
    ghost visits: { Self → List (Option (List ℕ)) → Self → Type 0 } = { λ _ _ _. Unit {0} };

    /// Takes a picture.
    fn visit(&mut self, picture: &PictureRow<'_>) -> Result<(), Self::Error>
        ensures visited { OnOk result (visits self.old (row_texts picture.now) self.new) };
}

// The texts of a row, in the order of the columns.
#[derive(Drop)]
pub(crate) struct Texts {
    pub texts: Vec<Option<String>>,
}

// The text of a value, if it is not NULL.
fn text_of_value(alloc: Global, value: ValueRef<'_>) -> Result<Option<String>, AllocError>
    ensures { IfOk result (λ text. Shows value.entry (option_map string_bytes text)) }
{
    match value {
        ValueRef::Null => Ok(None),
        ValueRef::Int(number) => Ok(Some(format!(in alloc; "{number}")?)),
        ValueRef::Real(number) => Ok(Some(format!(in alloc; "{number}")?)),
        ValueRef::Text(bytes) | ValueRef::Blob(bytes) => Ok(Some(text_of(alloc, bytes)?)),
    }
}

// The texts of a row.
fn texts_of(alloc: Global, row: &Row) -> Result<Texts, CatalogError>
    ensures shown { IfOk result (λ it. AllOf IsShown row.now
        (map (option_map string_bytes) it.texts.items)) }
    ensures memory { IfErr result (λ e. e ≡ CatalogError.OutOfMemory) }
{
    let mut texts = Vec::new(alloc);
    for i in 0..row.column_count() {
        texts.push(text_of_value(alloc, row.get_ref(i)?)?)?;
    }
    Ok(Texts { texts })
}

impl Texts {
    // The text of a column, if there is one.
    fn at(&self, column: usize) -> Option<&str>
        ensures { option_map (λ t. t.now) result ≡ text_at self.now column }
    {
        match self.texts.get(column) {
            Some(Some(text)) => Some(text.as_str()),
            _ => None,
        }
    }

    // The same by the names of the columns.
    fn row(&self) -> PictureRow<'_>
        ensures { row_texts result ≡ texts_of_row self.now }
    {
        PictureRow {
            path: self.at(0).unwrap_or(""),
            date_taken: self.at(1),
            make: self.at(2),
            model: self.at(3),
            exposure_time: self.at(4),
            f_number: self.at(5),
            iso: self.at(6),
            focal_length: self.at(7),
            latitude: self.at(8),
            longitude: self.at(9),
            orientation: self.at(10),
        }
    }
}

// Shows a picture.
fn show<V: Visitor>(visitor: &mut V, texts: &Texts) -> Result<(), RunError<V::Error>>
    ensures shown { OnOk result (V.visits visitor.old (texts_of_row texts.now) visitor.new) }
    ensures named { IfErr result (λ e. IsTrue (is_hand_error e)) }
{
    visitor.visit(&texts.row()).map_err(RunError::Caller)
}

// Shows the pictures.
fn visit_rows<S: Alter, V: Visitor>(
    alloc: Global,
    database: &mut Connection<S>,
    visitor: &mut V,
) -> Result<u64, RunError<V::Error>>
    ensures rows { HasCleanDisk (state S.Store database.new) → IfOk result
        (HandsEach S.Store (HandsPicture V.visits) (pictures_text shown_columns) database.old
        database.new visitor.old visitor.new) }
    ensures refused { HasCleanDisk (state S.Store database.new) → IfErr result
        (λ e. IsTrue (is_hand_error e) ⊎ ((why : CatalogError) × (e ≡ RunError.Catalog why)
        × FailsToHand S.Store (pictures_text shown_columns) database.old database.new why)) }
    ensures survives { Survives (state S.Store database.old) (state S.Store database.new)
        (CommitsShowing (pictures_text shown_columns) [] (state S.Store database.old)) }
    ensures shown { IfOk result (λ count. ShowsEach V.visits visitor.old count visitor.new) }
{
    let mut answer = database.query(pictures_text(), &[])?;
    'rows: for count in 0..u64::MAX {
        let Some(row) = answer.next()? else {
            return Ok(count);
        };
        show(visitor, &texts_of(alloc, row)?)?;
    }
    Err(RunError::Catalog(too_many()))
}

// What is shown the pictures.
#[derive(Drop)]
struct VisitJob<'v, V> {
    visitor: &'v mut V,
}

impl<V: Visitor> Job for VisitJob<'_, V> {
    type Answer = u64;

    type Error = V::Error;

    ghost does = { λ old result new.
        IfOk result (λ count. ShowsEach V.visits old.visitor.now count new.visitor.now)
        × (new.visitor.ghost_name ≡ old.visitor.ghost_name) };

    fn run<S: Alter>(
        &mut self,
        alloc: Global,
        database: &mut Connection<S>,
    ) -> Result<u64, RunError<V::Error>> {
        check_tables(alloc, database)?;
        visit_rows(alloc, database, self.visitor)
    }
}

/// Shows the pictures of a catalogue whose files were there in the last run that looked for them,
/// by the date when they were taken and then by their paths; those without a date come last. It
/// answers how many there were. A file that is not there is not made, and one that is no catalogue
/// of this version is refused. The database stays as it is.
pub fn visit<V: Visitor>(
    rt: &HostRuntime,
    path: &str,
    visitor: &mut V,
) -> Result<u64, RunError<V::Error>>
    ensures shown { IfOk result (λ count. ShowsEach V.visits visitor.old count visitor.new) }
{
    check_existing(rt, path)?;
    run_reading(rt, path, &mut VisitJob { visitor })
}
