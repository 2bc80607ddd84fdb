//! The tables of a catalogue, as SQL. docs/CATALOG.md describes them.

ghost use Rattle.std.specs.Prelude.{◌≡◌};
ghost use Rattle.exif_summary.specs.Columns.{columns};
ghost use Rattle.exif_catalog_file.specs.Schema.{create_text, pictures_text, shown_columns};

/// The version of the tables.
pub const VERSION: i64 = 2;

/// Makes the table of the version.
pub(crate) const CREATE_VERSION: &str = "CREATE TABLE catalog (version INTEGER NOT NULL) STRICT";

/// Writes the version, its one row.
pub(crate) const WRITE_VERSION: &str = "INSERT INTO catalog VALUES (2)";

/// Reads the version.
pub(crate) const READ_VERSION: &str = "SELECT version FROM catalog";

/// Names the tables that are there.
pub(crate) const READ_TABLES: &str = "SELECT name FROM sqlite_schema WHERE type = 'table'";

/// Reads the text that made the table of pictures.
pub(crate) const READ_CREATE: &str =
    "SELECT sql FROM sqlite_schema WHERE type = 'table' AND name = 'picture'";

/// The SQL text that makes the table of pictures: the columns of a file, those of
/// [`exif_summary::COLUMNS`] in their order, and `removed`.
pub fn create_text() -> &'static str
    ensures { result.now ≡ create_text columns }
{
    "CREATE TABLE picture (path TEXT NOT NULL PRIMARY KEY, file_size INTEGER, \
     file_modified INTEGER, file_modified_ns INTEGER, file_changed INTEGER, \
     file_changed_ns INTEGER, file_device INTEGER, file_inode INTEGER, hash TEXT, format TEXT, mime TEXT, width INTEGER, height INTEGER, \
     orientation INTEGER, make TEXT, model TEXT, lens TEXT, body_serial TEXT, lens_serial TEXT, \
     date_taken TEXT, date_digitized TEXT, date_modified TEXT, exposure_time REAL, \
     f_number REAL, iso INTEGER, focal_length REAL, focal_length_35mm INTEGER, latitude REAL, \
     longitude REAL, altitude REAL, artist TEXT, copyright TEXT, description TEXT, \
     has_thumbnail INTEGER, removed INTEGER NOT NULL DEFAULT 0) STRICT"
}

/// The SQL text that reads the pictures that are there, by the date when they were taken and then
/// by their paths; those without a date come last.
pub(crate) fn pictures_text() -> &'static str
    ensures { result.now ≡ pictures_text shown_columns }
{
    "SELECT path, date_taken, make, model, exposure_time, f_number, iso, focal_length, latitude, \
     longitude, orientation FROM picture WHERE removed = 0 ORDER BY date_taken IS NULL, date_taken, path"
}
