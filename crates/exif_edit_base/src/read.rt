//! Data read, and read again.

ghost use Rattle.std.specs.Prelude.{◌≡◌, ◌≤◌, ◌<◌, ◌^◌, ◌+◌, length, OnOk, IfOk};
ghost use Rattle.std.specs.Cmp.Lexicographic.{pointwise};
ghost use Rattle.exif_base.specs.Bytes.{number_at};
ghost use Rattle.exif_base.specs.Orders.{number_of, order_named};
ghost use Rattle.exif_edit_base.specs.Results.{parsed_of};
ghost use Rattle.exif_edit_base.specs.Walked.{Finds};
ghost use Rattle.exif_edit_base.specs.Readings.{ReadsTo, fault_eq, read_of, reading, reads_as};

use crate::walk::{Located, read_located};
use exif_base::{BigEndian, Endian, LittleEndian, Order};
use exif_tiff::Fault;
use exif_tiff::stop::Stop;
use exif_tiff::tiff::{Parsed, parse};
use std::alloc::{AllocError, Global};

/// Reads data leniently.
pub fn read(alloc: Global, bytes: &[u8]) -> Result<Parsed, Stop>
    ensures reads { ReadsTo result (reading bytes.now) }
    ensures space { OnOk result (8 ≤ length bytes.now) }
    ensures small { OnOk result (length bytes.now < 2 ^ 32) }
{
    parse(alloc, bytes, true, None)
}

/// Reads data leniently, and answers the offsets of what is read.
pub fn locate(alloc: Global, bytes: &[u8]) -> Result<Located, Stop>
    ensures reads { ReadsTo (parsed_of result) (reading bytes.now) }
    ensures offsets { IfOk result (λ located. Finds bytes.now located.walk) }
    ensures space { OnOk result (8 ≤ length bytes.now) }
    ensures small { OnOk result (length bytes.now < 2 ^ 32) }
{
    read_located(alloc, bytes)
}

/// Whether two lists of faults are one.
pub fn same_faults(a: &[Fault], b: &[Fault]) -> bool
    ensures { result ≡ pointwise fault_eq a.now b.now }
{
    a == b
}

/// Whether data are read so.
pub fn reads_as(alloc: Global, bytes: &[u8], wanted: &Parsed) -> Result<bool, AllocError>
    ensures { IfOk result (λ same. same ≡ reads_as bytes.now (read_of wanted.now)) }
{
    match read(alloc, bytes) {
        Ok(found) => Ok(
            found.little_endian == wanted.little_endian
                && found.fields.as_slice() == wanted.fields.as_slice()
                && same_faults(found.faults.as_slice(), wanted.faults.as_slice()),
        ),
        Err(Stop::Fault(_)) => Ok(false),
        Err(Stop::OutOfMemory) => Err(AllocError),
    }
}

/// The order of data that are little endian or not.
pub fn order_named(little_endian: bool) -> Order
    ensures { result ≡ order_named little_endian }
{
    if little_endian {
        Order::Little
    } else {
        Order::Big
    }
}

/// The 16-bit number at an offset.
pub fn number16(order: Order, bytes: &[u8], at: usize) -> u16
    requires { at + 2 ≤ length bytes.now }
    ensures { result ≡ number_at (number_of order) 2 bytes.now at }
{
    match order {
        Order::Big => BigEndian::loadu16(bytes, at),
        Order::Little => LittleEndian::loadu16(bytes, at),
    }
}

/// The 32-bit number at an offset.
pub fn number32(order: Order, bytes: &[u8], at: usize) -> u32
    requires { at + 4 ≤ length bytes.now }
    ensures { result ≡ number_at (number_of order) 4 bytes.now at }
{
    match order {
        Order::Big => BigEndian::loadu32(bytes, at),
        Order::Little => LittleEndian::loadu32(bytes, at),
    }
}
