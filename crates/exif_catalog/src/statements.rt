//! The statements of a run over a catalogue, as SQL.

ghost use Rattle.std.specs.Prelude.{◌≡◌};
ghost use Rattle.exif_summary.specs.Columns.{columns};
ghost use Rattle.exif_catalog.specs.Statements.{insert_text};

/// Reads what a run has to know of each row.
pub(crate) const READ_ROWS: &str =
    "SELECT path, file_size, file_modified, file_modified_ns, file_changed, file_changed_ns, \
     file_device, file_inode, removed, hash IS NULL FROM picture";

/// Reads the hashes that rows have.
pub(crate) const READ_HASHES: &str = "SELECT path, hash FROM picture WHERE hash IS NOT NULL";

/// Takes a row away.
pub(crate) const DELETE_ROW: &str = "DELETE FROM picture WHERE path = ?1";

/// Marks a row as removed, or not.
pub(crate) const MARK_ROW: &str = "UPDATE picture SET removed = ?2 WHERE path = ?1";

/// The SQL text that writes a row, whose parameters are the values of
/// [`row_values`](crate::row_values): a row of the same path is replaced. The text of a decimal
/// number becomes the number.
pub fn insert_text() -> &'static str
    ensures { result.now ≡ insert_text columns }
{
    "INSERT OR REPLACE INTO picture VALUES (?1, ?2, ?3, ?4, ?5, ?6, ?7, ?8, ?9, ?10, ?11, ?12, \
     ?13, ?14, ?15, ?16, ?17, ?18, ?19, ?20, ?21, ?22, CAST(?23 AS REAL), CAST(?24 AS REAL), ?25, \
     CAST(?26 AS REAL), ?27, CAST(?28 AS REAL), CAST(?29 AS REAL), CAST(?30 AS REAL), ?31, ?32, \
     ?33, ?34, 0)"
}
