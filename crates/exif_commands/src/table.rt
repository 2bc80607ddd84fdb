//! A row of a table for each file.

ghost use Rattle.std.specs.Prelude.{◌≡◌, Err, IfOk, IsFalse, Ok, is_err, option_map, true};
ghost use Rattle.exif_types.specs.declared.error.Error.TheVariants.{OutOfMemory};
ghost use Rattle.exif_commands.specs.Reads.{made_as, read_of};
ghost use Rattle.exif_commands.specs.Rows.{cells_in, row_with};

use crate::reads::{answer_of, read_opened, write_read};
use exif::{Error, Exif, Sink};
use exif_columns::{header, row};
use exif_decisions::Outcome;
use exif_formats::Picture;
use exif_inputs::open;
use exif_reader::report::contents_of;
use exif_session::{Session, Stop, Table};
use std::alloc::{AllocError, Global};

/// Writes the line with the names of the columns, where it is asked for.
pub fn write_header<W: Sink, E: Sink>(
    session: &mut Session<'_, '_, W, E>,
    table: &Table,
) -> Result<(), Stop>
    ensures none { IsFalse table.now.header → result ≡ Ok tt }
    ensures kept { IsFalse table.now.header → session.new ≡ session.old }
    ensures pending { session.new.pending ≡ session.old.pending }
{
    if !table.header {
        return Ok(());
    }
    let line = header(session.rt.alloc(), table.tags.as_slice(), table.separator)?;
    session.answer(line.as_slice())
}

/// Writes the row of a file, and answers its status.
pub fn write_row<W: Sink, E: Sink>(
    session: &mut Session<'_, '_, W, E>,
    table: &Table,
    path: &str,
) -> Result<Outcome, Stop>
    ensures pending { session.new.pending ≡ session.old.pending }
{
    let rt = session.rt;
    let read = read_opened(rt.alloc(), table.reading.options(), open(rt, path));
    let made = row_of(rt.alloc(), table, path, read)?;
    write_read(session, path, made)
}

// The row of a file of which this was read, and how many faults it has; or why it was refused.
// Where memory ran out while it was read, there is none.
fn row_of(
    alloc: Global,
    table: &Table,
    path: &str,
    read: Result<Picture, Error>,
) -> Result<Result<(Vec<u8>, usize), Error>, AllocError>
    ensures row { IfOk result (λ made.
        made_as made ≡ row_with table.now path.now (read_of read.entry)) }
    ensures memory { read_of read.entry ≡ Err OutOfMemory → is_err result ≡ true }
{
    row_with(alloc, table, path, contents_of(answer_of(read)))
}

// The same by its Exif data, if it has some.
fn row_with(
    alloc: Global,
    table: &Table,
    path: &str,
    found: Result<(Option<Exif>, usize), Error>,
) -> Result<Result<(Vec<u8>, usize), Error>, AllocError>
    ensures row { IfOk result (λ made. made_as made ≡ row_with table.now path.now found.entry) }
    ensures memory { found.entry ≡ Err OutOfMemory → is_err result ≡ true }
{
    match found {
        Ok((exif, faults)) => Ok(Ok((cells_of(alloc, table, path, exif.as_ref())?, faults))),
        Err(Error::OutOfMemory) => Err(AllocError),
        Err(error) => Ok(Err(error)),
    }
}

// The cells of a file.
fn cells_of(
    alloc: Global,
    table: &Table,
    path: &str,
    exif: Option<&Exif>,
) -> Result<Vec<u8>, AllocError>
    ensures { IfOk result (λ line. line.items
        ≡ cells_in table.now path.now (option_map (λ e. e.now.fields) exif.entry)) }
{
    row(
        alloc,
        path.as_bytes(),
        exif,
        table.tags.as_slice(),
        table.form,
        table.separator,
    )
}
