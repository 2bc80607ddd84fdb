//! Runs worked cases from data files: `exif_vectors FILE...`. Each case is run over bytes in
//! memory, over a source that seeks, one byte a call, and with a reader and a writer that fail at
//! each call in turn. A line names each case that fails, and the last line counts the cases of
//! all files.
#![tactic(auto)]

mod calls;
mod cases;
mod changes;
mod edits;
mod memory;
mod modes;
mod readings;
mod script;
mod tables;
mod texts;
mod writings;

use crate::cases::CaseError;
use script::{Script, Tally};
use std::process::ExitCode;
use std::{env, fs, io};

fn main(rt: HostRuntime) -> io::Result<ExitCode> {
    let mut all = Tally::new();
    for name in env::args(&rt)?.skip(1) {
        all.add(run_file(&rt, name.as_str())?);
    }
    let (passed, failed) = (all.passed, all.failed);
    println!(rt; "{passed} passed, {failed} failed")?;
    Ok(ExitCode::from(u8::from(failed > 0)))
}

// Runs the cases of a file. Prints each that fails, and how many cases there are.
fn run_file(rt: &HostRuntime, name: &str) -> io::Result<Tally> {
    let text = fs::read_to_string(rt, name)?;
    let mut script = Script::new(rt.alloc());
    for (number, line) in text.lines().enumerate() {
        if let Err(error) = script.line(rt, line) {
            report_line(rt, name, number, error)?;
            script.fail();
        }
    }
    if let Err(error) = script.line(rt, "") {
        report_line(rt, name, 0, error)?;
        script.fail();
    }
    let tally = script.tally();
    let (passed, failed) = (tally.passed, tally.failed);
    println!(rt; "{name}: {passed} passed, {failed} failed")?;
    Ok(tally)
}

// Prints why a line can't be used.
fn report_line(rt: &HostRuntime, name: &str, number: usize, error: CaseError) -> io::Result<()> {
    let number = number.saturating_add(1);
    println!(rt; "{name}:{number}: {error}")
}
