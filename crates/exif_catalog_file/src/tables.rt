//! Which tables a database has.

ghost use Rattle.std.specs.Prelude.{◌≡◌, count_by, not};
ghost use Rattle.exif_catalog_file.specs.Tables.{is_internal, is_own, tables_for, tables_of};

/// Which tables a database has.
#[derive(Clone, Copy)]
pub enum Tables {
    /// None.
    None,
    /// Those of a catalogue.
    Catalog,
    /// Others.
    Other,
}

// Whether SQLite keeps a table for itself.
fn is_internal(name: &String) -> bool
    ensures { result ≡ is_internal name.now }
{
    name.as_bytes().starts_with(b"sqlite_")
}

// Whether a table is one of a catalogue.
fn is_own(name: &String) -> bool
    ensures { result ≡ is_own name.now }
{
    name.as_str() == "catalog" || name.as_str() == "picture"
}

// Which tables there are, by how many are not SQLite's own, and how many are a catalogue's.
fn tables_for(others: usize, own: usize) -> Tables
    ensures { result ≡ tables_for others own }
{
    if others == 0 {
        Tables::None
    } else if others == 2 && own == 2 {
        Tables::Catalog
    } else {
        Tables::Other
    }
}

// How many tables are not SQLite's own.
fn count_others(names: &[String]) -> usize
    ensures { result ≡ count_by (λ name. not (is_internal name)) names.now }
{
    names.iter().filter(|name| !is_internal(name)).count()
}

// How many tables are a catalogue's.
fn count_own(names: &[String]) -> usize
    ensures { result ≡ count_by is_own names.now }
{
    names.iter().filter(|name| is_own(name)).count()
}

/// Which tables a database has, by the names of all of them, which differ: those of a catalogue
/// are `catalog` and `picture`. Tables of SQLite itself do not count.
pub fn tables_of(names: &[String]) -> Tables
    ensures { result ≡ tables_of names.now }
{
    tables_for(count_others(names), count_own(names))
}
