//! Prints what the Exif metadata of a file say: `exif_show [-c] FILE`.
#![tactic(auto)]

mod program;
#[cfg(test)]
mod tests;

use exif_base::{Counted, Seekable};
use exif_types::Error;
use program::{mode, say, show};
use std::fs::File;
use std::io::{BufWriter, ErrorKind, Seek};
use std::process::ExitCode;
use std::{env, io};

const HELP: &str =
    "Print the Exif metadata of a picture (TIFF, JPEG, HEIF, WebP), one field per line.

usage: exif_show [-c] FILE

  -c      continue after faults, and report them
  --help  print this help; for a file of that name, write ./--help";

fn main(rt: HostRuntime) -> io::Result<ExitCode> {
    let words = match env::args(&rt) {
        Ok(words) => words,
        Err(cause) if cause.kind() == ErrorKind::InvalidData => {
            eprintln!(rt; "The name is not UTF-8")?;
            return Ok(ExitCode::from(1));
        }
        Err(cause) => return Err(cause),
    };
    let mut arguments = Vec::new(rt.alloc());
    for argument in words.skip(1) {
        arguments.push(argument)?;
    }
    if is_help(arguments.as_slice()) {
        println!(rt; "{HELP}")?;
        return Ok(ExitCode::from(0));
    }
    let Some((lenient, index)) = mode(arguments.as_slice()) else {
        eprintln!(rt; "usage: exif_show [-c] FILE")?;
        return Ok(ExitCode::from(2));
    };
    let mut err = Counted::new(rt.stderr());
    let file = match File::open(&rt, arguments[index].as_str()) {
        Ok(file) => file,
        Err(cause) => {
            let _ = say(rt.alloc(), &mut err, &Error::Io(cause));
            return Ok(ExitCode::from(1));
        }
    };
    let mut out = Counted::new(BufWriter::new(rt.alloc(), rt.stdout())?);
    let status = if seeks(&file) {
        let mut reader = Seekable::new(file);
        show(rt.alloc(), &mut reader, &mut out, &mut err, lenient)
    } else {
        let mut reader = Counted::new(file);
        show(rt.alloc(), &mut reader, &mut out, &mut err, lenient)
    };
    Ok(ExitCode::from(status))
}

// Whether help is requested.
fn is_help(arguments: &[String]) -> bool {
    match arguments {
        [argument] => argument.as_str() == "--help",
        _ => false,
    }
}

// Whether the file seeks, which a pipe does not.
fn seeks(file: &File) -> bool {
    let mut stream = file;
    stream.stream_position().is_ok()
}
