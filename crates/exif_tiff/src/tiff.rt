//! TIFF data: the header, and the fields behind it (TIFF 6.0, section 2).

ghost use Rattle.std.specs.Prelude.{◌≡◌, ◌≤◌, ◌<◌, ◌^◌, length, IfOk, OnOk, None, Some, false, true};
ghost use Rattle.exif_tiff.specs.Trace.{header, content_of, cut, ordered_trace, trace};
ghost use Rattle.exif_tiff.specs.Answers.{answer_of, raw_answer};
ghost use Rattle.exif_tiff.specs.Bounds.{FieldsAtMost};
ghost use Rattle.exif_tiff.specs.Noted.{TellsOffsets};
ghost use Rattle.exif_tiff.specs.Readings.{ParsesAs};
ghost use Rattle.exif_tiff.specs.Results.{Says, AsksMemory, SaysOrder, parsed_of};

use crate::Fault;
use crate::bytes::show_bytes;
use crate::laws::{answers_show_what_was_read, limits_cut_readings, reading_is_bounded};
use crate::offsets::Offsets;
use crate::parser::Parser;
use crate::stop::Stop;
use exif_base::{BigEndian, Endian, LittleEndian, Order};
use exif_types::{Error, Field};
use std::alloc::Global;

/// What was read of TIFF data.
#[derive(Drop)]
pub struct Parsed {
    pub fields: Vec<Field>,
    pub faults: Vec<Fault>,
    pub little_endian: bool,
}

/// What was read of TIFF data, and where it is.
#[derive(Drop)]
pub struct Placed {
    pub parsed: Parsed,
    pub offsets: Offsets,
}

/// The order of the data, or what is wrong with their header.
pub fn header(bytes: &[u8]) -> Result<Order, Fault>
    ensures value { result ≡ header bytes.now }
    ensures room { OnOk result (8 ≤ length bytes.now) }
    ensures small { OnOk result (length bytes.now < 2 ^ 32) }
{
    if bytes.len() > 4294967295 {
        return Err(Fault::DataTooLarge);
    }
    if bytes.len() < 8 {
        return Err(Fault::TruncatedHeader);
    }
    let (order, version) = match (bytes[0], bytes[1]) {
        (b'M', b'M') => (Order::Big, BigEndian::loadu16(bytes, 2)),
        (b'I', b'I') => (Order::Little, LittleEndian::loadu16(bytes, 2)),
        _ => return Err(Fault::InvalidByteOrder),
    };
    if version != 42 {
        return Err(Fault::InvalidFortyTwo);
    }
    Ok(order)
}

// Reads data whose header is right, up to a limit on the visited entries, and with the offsets
// where they are requested.
fn parse_in<E: Endian>(
    alloc: Global,
    bytes: &[u8],
    lenient: bool,
    most: u64,
    asked: bool,
    little_endian: bool,
) -> Result<Placed, Stop>
    requires header { 8 ≤ length bytes.now }
    requires small { length bytes.now < 2 ^ 32 }
    ensures says { Says (parsed_of result)
        (answer_of lenient (content_of (cut most (ordered_trace E.number_of bytes.now)))) }
    ensures order { IfOk result (λ placed. placed.parsed.little_endian ≡ little_endian) }
    ensures offsets { lenient ≡ true → asked ≡ true → IfOk result
        (λ placed. TellsOffsets (cut most (ordered_trace E.number_of bytes.now)) placed.offsets) }
{
    let mut parser = Parser::new(alloc, lenient, most, Offsets::new(alloc, asked));
    match parser.chain::<E>(alloc, bytes, 8, E::loadu32(bytes, 4)) {
        Ok(()) => {}
        Err(Stop::Fault(fault)) => parser.met(fault)?,
        Err(Stop::OutOfMemory) => return Err(Stop::OutOfMemory),
    }
    let (fields, faults, offsets) = parser.into_parts();
    let parsed = Parsed {
        fields,
        faults,
        little_endian,
    };
    Ok(Placed { parsed, offsets })
}

// Reads TIFF data, up to so many visited entries, and with the offsets where they are requested.
fn parse_within(
    alloc: Global,
    bytes: &[u8],
    lenient: bool,
    most: u64,
    asked: bool,
) -> Result<Placed, Stop>
    ensures says { Says (parsed_of result) (raw_answer lenient (Some most) bytes.now) }
    ensures order { SaysOrder (parsed_of result) bytes.now }
    ensures memory { AsksMemory (parsed_of result) bytes.now }
    ensures offsets { lenient ≡ true → asked ≡ true → IfOk result
        (λ placed. TellsOffsets (cut most (trace bytes.now)) placed.offsets) }
{
    match header(bytes) {
        Ok(Order::Big) => parse_in::<BigEndian>(alloc, bytes, lenient, most, asked, false),
        Ok(Order::Little) => parse_in::<LittleEndian>(alloc, bytes, lenient, most, asked, true),
        Err(fault) => Err(Stop::Fault(fault)),
    }
}

/// Reads TIFF data, strictly or leniently, and up to a limit on the visited entries. No data have
/// as many entries as a limit can say, so that the greatest one limits nothing.
pub fn parse(alloc: Global, bytes: &[u8], lenient: bool, limit: Option<u64>) -> Result<Parsed, Stop>
    ensures says { Says result (raw_answer lenient limit bytes.now) }
    ensures order { SaysOrder result bytes.now }
    ensures memory { AsksMemory result bytes.now }
{
    show_bytes(bytes);
    reading_is_bounded();
    limits_cut_readings();
    let placed = parse_within(alloc, bytes, lenient, limit.unwrap_or(u64::MAX), false)?;
    Ok(placed.parsed)
}

/// Reads TIFF data leniently and without a limit, with the offsets of what it reads.
pub fn parse_located(alloc: Global, bytes: &[u8]) -> Result<Placed, Stop>
    ensures says { Says (parsed_of result) (raw_answer true None bytes.now) }
    ensures order { SaysOrder (parsed_of result) bytes.now }
    ensures memory { AsksMemory (parsed_of result) bytes.now }
    ensures offsets { IfOk result (λ placed. TellsOffsets (trace bytes.now) placed.offsets) }
{
    show_bytes(bytes);
    reading_is_bounded();
    limits_cut_readings();
    parse_within(alloc, bytes, true, u64::MAX, true)
}

/// Reads TIFF data leniently, up to a limit on the visited entries, with the offsets of what it
/// reads.
pub fn parse_located_within(alloc: Global, bytes: &[u8], limit: u64) -> Result<Placed, Stop>
    ensures says { Says (parsed_of result) (raw_answer true (Some limit) bytes.now) }
    ensures order { SaysOrder (parsed_of result) bytes.now }
    ensures memory { AsksMemory (parsed_of result) bytes.now }
    ensures offsets { IfOk result
        (λ placed. TellsOffsets (cut limit (trace bytes.now)) placed.offsets) }
{
    parse_within(alloc, bytes, true, limit, true)
}

/// Reads TIFF data strictly: the fields, and whether the data are little endian. The first fault
/// is the error.
pub fn parse_exif(alloc: Global, bytes: &[u8]) -> Result<(Vec<Field>, bool), Error>
    ensures parses { ParsesAs (raw_answer false None bytes.now) bytes.now result }
    ensures bounded { FieldsAtMost bytes.now result }
{
    show_bytes(bytes);
    reading_is_bounded();
    parse_strictly(alloc, bytes)
}

fn parse_strictly(alloc: Global, bytes: &[u8]) -> Result<(Vec<Field>, bool), Error>
    ensures { ParsesAs (raw_answer false None bytes.now) bytes.now result }
{
    let parsed = parse(alloc, bytes, false, None)?;
    answers_show_what_was_read();
    Ok((parsed.fields, parsed.little_endian))
}
