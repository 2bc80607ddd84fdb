//! Answers of a catalogue.

ghost use Rattle.std.specs.Prelude.{IfOk};
ghost use Rattle.exif_session.specs.Statuses.{IsStatus};

use crate::refusals::query_refusal;
use exif::Sink;
use exif_base::send_all;
use exif_catalog_file::{Lines, query};
use exif_files::Status;
use exif_inputs::Console;
use exif_session::Stop;
use std::io;

// Standard output.
#[derive(Drop)]
struct Output<'w, W> {
    out: &'w mut W,
}

impl<W: Sink> Lines for Output<'_, W> {
    type Error = io::Error;

    fn take(&mut self, line: &[u8]) -> Result<(), io::Error> {
        send_all(self.out, line)
    }
}

/// Writes the answer of a catalogue to a query as lines, the first with the names of the columns,
/// and answers the status: 0, or 1 where the catalogue or the query was refused.
pub fn answer_query<W: Sink, E: Sink>(
    rt: &HostRuntime,
    database: &str,
    sql: &str,
    out: &mut W,
    err: &mut E,
) -> Result<u8, Stop>
    ensures { IfOk result IsStatus }
{
    let answered = query(rt, database, sql, &mut Output { out });
    out.flush().map_err(Stop::Output)?;
    match query_refusal(answered)? {
        None => Ok(Status::Success.code()),
        Some(error) => {
            Console::new(rt, err, false).say(database, &error);
            Ok(Status::Refused.code())
        }
    }
}
