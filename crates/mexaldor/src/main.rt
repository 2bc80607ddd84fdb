//! Exif metadata of many files: shown, written as JSON, removed, set and shifted.
#![tactic(auto)]

ghost use Rattle.std.specs.Prelude.{◌≡◌, ◌≢◌, ◌⊎◌, IfOk};
ghost use Rattle.clap.specs.Values.{kind_of};
ghost use Rattle.clap.specs.declared.error.kind.ErrorKind.TheVariants.{DisplayHelp, DisplayVersion};
ghost use Rattle.exif_session.specs.Statuses.{IsStatus};
ghost use Rattle.mexaldor.specs.Endings.{end_status, stop_status};

mod ending;
mod invocation;
mod line;

use clap::Error;
use ending::{TaskRun, is_closed, run_for, shown_status, shows_progress};
use exif::Counted;
use exif_arguments::command;
use exif_catalog_commands::{answer_query, run_catalog, write_page};
use exif_commands::run;
use exif_decisions::write_tags;
use exif_rename_commands::run_renames;
use exif_session::{Paging, Request, Stop};
use invocation::{Invocation, parse_args};
use line::words;
use std::io::{self, BufWriter, IsTerminal};
use std::process::ExitCode;

fn main(rt: HostRuntime) -> io::Result<ExitCode> {
    let words = words(&rt)?;
    Ok(ExitCode::from(status_for(&rt, words.as_slice())))
}

// Does what the words request, or says what is wrong with them, and answers the status.
fn status_for(rt: &HostRuntime, words: &[String]) -> u8
    ensures { IsStatus result ⊎ (result ≡ 2) }
{
    match answer(rt, words) {
        Ok(status) => status,
        Err(error) => shown(rt, &error),
    }
}

// Writes the help, or a message about wrong words, and answers the status.
fn shown(rt: &HostRuntime, error: &Error) -> u8
    ensures mistake { kind_of error.now ≢ DisplayHelp → kind_of error.now ≢ DisplayVersion
        → result ≡ 2 }
    ensures help { kind_of error.now ≡ DisplayHelp → (result ≡ 0) ⊎ (result ≡ 1) }
    ensures version { kind_of error.now ≡ DisplayVersion → (result ≡ 0) ⊎ (result ≡ 1) }
    ensures status { IsStatus result ⊎ (result ≡ 2) }
{
    let is_mistake = error.use_stderr();
    ended(rt, shown_status(is_mistake, error.print(rt)))
}

// Does what the words request, and answers the status.
fn answer(rt: &HostRuntime, words: &[String]) -> Result<u8, Error>
    ensures { IfOk result IsStatus }
{
    let mut command = command(rt.alloc())?;
    let found = command.try_get_matches_from_mut(words)?;
    match parse_args(rt.alloc(), &found)? {
        Invocation::Tags => Ok(list_tags(rt)),
        Invocation::Run(request) => Ok(run_request(rt, &request)),
        Invocation::Query(database, sql) => Ok(run_query(rt, database, sql)),
        Invocation::Page(paging) => Ok(run_page(rt, &paging)),
    }
}

// Writes the answer of a catalogue.
fn run_query(rt: &HostRuntime, database: &str, sql: &str) -> u8
    ensures { IsStatus result }
{
    let out = match BufWriter::new(rt.alloc(), rt.stdout()) {
        Ok(out) => out,
        Err(_) => return stopped(rt, Stop::OutOfMemory),
    };
    let mut out = Counted::new(out);
    let mut err = Counted::new(rt.stderr());
    ended(rt, answer_query(rt, database, sql, &mut out, &mut err))
}

// Writes the page of a catalogue.
fn run_page(rt: &HostRuntime, paging: &Paging<'_>) -> u8
    ensures { IsStatus result }
{
    let out = match BufWriter::new(rt.alloc(), rt.stdout()) {
        Ok(out) => out,
        Err(_) => return stopped(rt, Stop::OutOfMemory),
    };
    let mut out = Counted::new(out);
    let mut err = Counted::new(rt.stderr());
    ended(rt, write_page(rt, paging, &mut out, &mut err))
}

// Lists the tags.
fn list_tags(rt: &HostRuntime) -> u8
    ensures { (result ≡ 0) ⊎ (result ≡ 1) }
{
    let written = match BufWriter::new(rt.alloc(), rt.stdout()) {
        Ok(out) => write_tags(rt.alloc(), &mut Counted::new(out)),
        Err(error) => Err(error),
    };
    ended(rt, shown_status(false, written))
}

// Does what is requested with the files.
fn run_request(rt: &HostRuntime, request: &Request<'_>) -> u8
    ensures { IsStatus result }
{
    let is_shown = shows_progress(rt.stderr().is_terminal(), rt.stdout().is_terminal());
    let out = match BufWriter::new(rt.alloc(), rt.stdout()) {
        Ok(out) => out,
        Err(_) => return stopped(rt, Stop::OutOfMemory),
    };
    let mut out = Counted::new(out);
    let mut err = Counted::new(rt.stderr());
    let ran = match run_for(&request.task) {
        TaskRun::Catalog(cataloguing) => {
            run_catalog(rt, request, cataloguing, is_shown, &mut out, &mut err)
        }
        TaskRun::Renames => run_renames(rt, request, is_shown, &mut out, &mut err),
        TaskRun::Files => run(rt, request, is_shown, &mut out, &mut err),
    };
    ended(rt, ran)
}

// The status of a run. Why it ended early is reported.
fn ended(rt: &HostRuntime, run: Result<u8, Stop>) -> u8
    ensures exact { result ≡ end_status run }
    ensures status { IfOk run IsStatus → IsStatus result }
{
    match run {
        Ok(status) => status,
        Err(stop) => stopped(rt, stop),
    }
}

// Reports why a run ended early, and answers the status. A closed pipe ends it without a message.
fn stopped(rt: &HostRuntime, stop: Stop) -> u8
    ensures exact { result ≡ stop_status stop }
    ensures status { IsStatus result }
{
    if is_closed(&stop) {
        return 0;
    }
    let _ = match stop {
        Stop::Output(cause) => {
            eprintln!(rt; "mexaldor: cannot write to standard output: {cause}")
        }
        Stop::Input(cause) => {
            eprintln!(rt; "mexaldor: cannot read names from standard input: {cause}")
        }
        Stop::OutOfMemory => eprintln!(rt; "mexaldor: out of memory"),
    };
    1
}
