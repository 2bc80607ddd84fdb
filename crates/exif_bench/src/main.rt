//! Times reading, reporting and writing on a file.
//!
//! Times are of this process, from memory, in ns a call: the best and the mean of several rounds.
#![tactic(auto)]

mod timing;
mod work;

use exif::Error;
use std::alloc::Global;
use std::process::ExitCode;
use std::rt::{Clock, Files};
use std::{env, fs};
use timing::time;
use work::{Work, read};

const USAGE: &str = "usage: exif_bench --sizes FILE
       exif_bench FILE N [read|whole|report|write]

--sizes FILE    says how many bytes and fields a file has
FILE N [WORK]   times N calls on a file, of each work or of one";

// What is requested of the program.
enum Request<'a> {
    Sizes(&'a str),
    Time(&'a str, u64, Option<Work>),
}

// What the arguments behind the program's name ask for.
fn asked_by(arguments: &[String]) -> Option<Request<'_>> {
    match arguments {
        [sizes, file] if sizes.as_str() == "--sizes" => Some(Request::Sizes(file.as_str())),
        [file, calls] => Some(Request::Time(
            file.as_str(),
            calls.as_str().parse::<u64>().ok()?,
            None,
        )),
        [file, calls, work] => Some(Request::Time(
            file.as_str(),
            calls.as_str().parse::<u64>().ok()?,
            Some(Work::named(work.as_str())?),
        )),
        _ => None,
    }
}

// The bytes and the fields of a file, behind its name.
fn sizes(alloc: Global, name: &str, bytes: &[u8]) -> Result<String, Error> {
    let fields = read(alloc, bytes).map_or(0, |exif| exif.fields().len());
    Ok(format!(in alloc; "{name} bytes {} fields {fields}", bytes.len())?)
}

// The times of the works on a file, behind its sizes.
fn timed(
    rt: &(impl Clock + AllocGlobal),
    name: &str,
    bytes: &[u8],
    calls: u64,
    only: Option<Work>,
) -> Result<String, Error> {
    let mut line = sizes(rt.alloc(), name, bytes)?;
    let mut made = 0usize;
    for work in Work::ALL {
        if only.is_none_or(|one| one == work) {
            let taken = time(rt, work, bytes, calls)?;
            let part = format!(in rt.alloc(); " {} {} {}", work.name(), taken.best, taken.mean)?;
            line.push_str(part.as_str())?;
            made = made.wrapping_add(taken.made);
        }
    }
    let end = format!(in rt.alloc(); " made {made}")?;
    line.push_str(end.as_str())?;
    Ok(line)
}

// Does what is requested.
fn serve(
    rt: &(impl Print + Files + Clock + AllocGlobal),
    request: Request<'_>,
) -> Result<(), Error> {
    let line = match request {
        Request::Sizes(file) => sizes(rt.alloc(), file, &fs::read(rt, file)?)?,
        Request::Time(file, calls, only) => timed(rt, file, &fs::read(rt, file)?, calls, only)?,
    };
    println!(rt; "{line}")?;
    Ok(())
}

// What the program does with its arguments, and the status that it ends with.
fn run(
    rt: &(impl Print + Eprint + Files + Clock + AllocGlobal),
    arguments: &[String],
) -> Result<u8, Error> {
    let Some(request) = asked_by(arguments) else {
        eprintln!(rt; "{USAGE}")?;
        return Ok(2);
    };
    serve(rt, request)?;
    Ok(0)
}

fn main(rt: HostRuntime) -> Result<ExitCode, Error> {
    let mut arguments = Vec::new(rt.alloc());
    for argument in env::args(&rt)?.skip(1) {
        arguments.push(argument)?;
    }
    let status = run(&rt, arguments.as_slice())?;
    Ok(ExitCode::from(status))
}
