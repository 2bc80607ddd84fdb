//! CR3 files, whose directories are TIFF data of their own.

ghost use Rattle.std.specs.Prelude.{◌≡◌, All, IfOk, IfSome, map, false, Ok};
ghost use Rattle.std.specs.Option.{option_map};
ghost use Rattle.exif_base.specs.Orders.{order_named};
ghost use Rattle.exif_base.specs.Reads.{Counts};
ghost use Rattle.exif_types.specs.Refusals.{IsInterrupted, is_io};
ghost use Rattle.exif_types.specs.Sound.{IsRead};
ghost use Rattle.exif_tiff.specs.Answers.{raw_answer, shown};
ghost use Rattle.exif_tiff.specs.Trace.{header};
ghost use Rattle.exif_tiff.specs.Readings.{HoldsData, ReadsHeld};
ghost use Rattle.exif_tiff.specs.Results.{Says, SaysOrder};
ghost use Rattle.exif_formats.specs.Cr3.{cr3_answer};
ghost use Rattle.exif_formats.specs.Cr3Steps.{parts_view};
ghost use Rattle.exif_formats.specs.Pictures.{ReadsDirectories, answer_in, directories_answer, field_in, joined, joined_with};

use crate::options::Options;
use crate::raw::cr3::{Parts, find};
use exif_base::Source;
use exif_reader::errors_of;
use exif_tiff::laws::answers_show_what_was_read;
use exif_tiff::stop::Stop;
use exif_tiff::tiff::{Parsed, parse};
use exif_types::{Context, Error, Exif, Field, exif_from_parts, partial_from_parts};
use std::alloc::{AllocError, Global};

// Puts a field of the chain into another context.
fn put_in(context: Context, field: &mut Field)
    ensures { field.new ≡ field_in context field.old }
{
    match field.tag.0 {
        Context::Tiff => field.tag.0 = context,
        Context::Exif | Context::Gps | Context::Interop => {}
    }
}

// The same with all these fields.
fn put_all_in(context: Context, fields: &mut [Field])
    ensures { fields.new ≡ map (field_in context) fields.old }
{
    for i in 0..fields.len() {
        put_in(context, &mut fields[i]);
    }
}

// What was read of two directories, the second of them in this context.
fn join(first: Parsed, context: Context, second: Parsed) -> Result<Parsed, AllocError>
    requires first { All IsRead first.fields.items }
    requires second { All IsRead second.fields.items }
    ensures joined { IfOk result (λ all. shown all.fields.items all.faults.items
        ≡ joined (shown first.fields.items first.faults.items)
        (answer_in context (shown second.fields.items second.faults.items))) }
    ensures read { IfOk result (λ all. All IsRead all.fields.items) }
    ensures order { IfOk result (λ all. all.little_endian ≡ first.little_endian) }
{
    let Parsed {
        mut fields,
        mut faults,
        little_endian,
    } = first;
    let Parsed {
        fields: mut more_fields,
        faults: mut more_faults,
        little_endian: _,
    } = second;
    put_all_in(context, more_fields.as_mut_slice());
    fields.append(&mut more_fields)?;
    faults.append(&mut more_faults)?;
    Ok(Parsed {
        fields,
        faults,
        little_endian,
    })
}

// What is read of a directory.
fn parse_one(alloc: Global, options: Options, bytes: &[u8]) -> Result<Parsed, Stop>
    ensures says { Says result (raw_answer options.lenient options.limit bytes.now) }
    ensures read { IfOk result (λ parsed. All IsRead parsed.fields.items) }
    ensures order { SaysOrder result bytes.now }
{
    answers_show_what_was_read();
    parse(alloc, bytes, options.lenient, options.limit)
}

// Adds what is read of a directory in this context, if the file has it.
fn add(
    alloc: Global,
    options: Options,
    context: Context,
    bytes: &Option<Vec<u8>>,
    first: Parsed,
) -> Result<Parsed, Stop>
    requires { All IsRead first.fields.items }
    ensures says { Says result (joined_with (raw_answer options.lenient options.limit) context
        (option_map (λ v. v.items) bytes.now) (shown first.fields.items first.faults.items)) }
    ensures read { IfOk result (λ all. All IsRead all.fields.items) }
    ensures order { IfOk result (λ all. all.little_endian ≡ first.little_endian) }
{
    let Some(bytes) = bytes else {
        return Ok(first);
    };
    let second = parse_one(alloc, options, bytes.as_slice())?;
    let all = join(first, context, second)?;
    Ok(all)
}

// What is read of all directories.
fn parse_all(alloc: Global, options: Options, found: &Parts) -> Result<Parsed, Stop>
    ensures says { Says result (directories_answer
        (raw_answer options.lenient options.limit) (parts_view found.now)) }
    ensures read { IfOk result (λ all. All IsRead all.fields.items) }
    ensures order { SaysOrder result found.now.primary.items }
{
    let primary = parse_one(alloc, options, found.primary.as_slice())?;
    let with_exif = add(alloc, options, Context::Exif, &found.exif, primary)?;
    let all = add(alloc, options, Context::Gps, &found.gps, with_exif)?;
    Ok(all)
}

// What was read, over the data of the first directory.
fn finish(alloc: Global, bytes: Vec<u8>, parsed: Parsed) -> Result<Exif, Error>
    requires read { All IsRead parsed.fields.items }
    requires order { header bytes.items ≡ Ok (order_named parsed.little_endian) }
    ensures reads { ReadsHeld HoldsData IsInterrupted
        (shown parsed.fields.items parsed.faults.items) bytes.items result }
    ensures io { is_io result ≡ false }
{
    let errors = errors_of(alloc, parsed.faults.as_slice())?;
    let exif = exif_from_parts(alloc, bytes, parsed.fields, parsed.little_endian)?;
    if errors.is_empty() {
        return Ok(exif);
    }
    Err(Error::PartialResult(partial_from_parts(exif, errors)))
}

// What is read of the directories of a file.
fn read_directories(alloc: Global, options: Options, found: Parts) -> Result<Exif, Error>
    ensures reads { ReadsHeld HoldsData IsInterrupted
        (directories_answer (raw_answer options.lenient options.limit) (parts_view found))
        found.primary.items result }
    ensures io { is_io result ≡ false }
{
    let parsed = parse_all(alloc, options, &found)?;
    let Parts {
        primary,
        exif: _,
        gps: _,
    } = found;
    finish(alloc, primary, parsed)
}

/// What is read of a CR3 file: the fields of the first directory, and those of the Exif and the GPS
/// directory in their contexts.
pub fn read_cr3<R: Source>(options: Options, alloc: Global, source: &mut R) -> Result<Exif, Error>
    ensures reads { IfSome (R.left source.old) (λ bytes. ReadsDirectories
        (raw_answer options.lenient options.limit) (cr3_answer bytes) result) }
    ensures counts { Counts R.Source source.old source.new (is_io result) }
{
    let found = find(alloc, source)?;
    let exif = read_directories(alloc, options, found)?;
    Ok(exif)
}
