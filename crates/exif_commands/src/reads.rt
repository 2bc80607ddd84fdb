//! What was read of a picture, with its faults, and what is written of it.

ghost use Rattle.std.specs.Prelude.{◌≡◌, IfErr, IfOk, IfSome, Err, take};
ghost use Rattle.exif_formats.specs.Formats.{format_in};
ghost use Rattle.exif_formats.specs.Pictures.{ReadsPicture};
ghost use Rattle.exif_inputs.specs.Uses.{held};
ghost use Rattle.exif_types.specs.declared.error.Error.TheVariants.{Io};
ghost use Rattle.exif_commands.specs.Reads.{answer_read, outcome_written};

use exif::{Error, Exif, Sink};
use exif_decisions::Outcome;
use exif_formats::{Options, Picture};
use exif_inputs::{Input, read};
use exif_session::{Session, Stop};
use std::alloc::Global;
use std::io;

/// What a reader answers of what was opened, or why that could not be.
pub fn read_opened(
    alloc: Global,
    options: Options,
    input: io::Result<Input>,
) -> Result<Picture, Error>
    ensures failed { IfErr input (λ cause. result ≡ Err (Io cause)) }
    ensures format { IfOk input (λ input. IfOk result (λ picture. IfSome (held input) (λ bytes.
        picture.format ≡ format_in (take 4096 bytes)))) }
    ensures reads { IfOk input (λ input. IfOk result (λ picture. IfSome (held input) (λ bytes.
        ReadsPicture options.lenient options.limit bytes picture.answer))) }
{
    match input {
        Ok(input) => read(alloc, options, input),
        Err(cause) => Err(Error::Io(cause)),
    }
}

/// What was read of a picture, or why nothing was.
pub fn answer_of(read: Result<Picture, Error>) -> Result<Exif, Error>
    ensures { result ≡ answer_read read.entry }
{
    match read {
        Ok(picture) => picture.answer,
        Err(error) => Err(error),
    }
}

/// Writes what is written of a file, and reports how many faults were skipped in it; or reports why
/// it was refused. Answers its status.
pub fn write_read<W: Sink, E: Sink>(
    session: &mut Session<'_, '_, W, E>,
    path: &str,
    made: Result<(Vec<u8>, usize), Error>,
) -> Result<Outcome, Stop>
    ensures outcome { IfOk result (λ outcome. outcome ≡ outcome_written made.entry) }
    ensures pending { session.new.pending ≡ session.old.pending }
{
    match made {
        Ok((text, faults)) => {
            session.answer(text.as_slice())?;
            session.skip_faults(path, faults)
        }
        Err(error) => session.refuse(path, &error),
    }
}
