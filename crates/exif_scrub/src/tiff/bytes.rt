//! Numbers of a file, and bytes of it that stay.

ghost use Rattle.std.specs.Prelude.{◌≡◌, ◌≤◌, ◌+◌, length, true};
ghost use Rattle.exif_base.specs.Orders.{number_of};
ghost use Rattle.exif_scrub.specs.Keeping.{Puts, is_within, kept_bytes, number_in, stretch_compared, stretch_kept, stretch_tested, stretch_visited};

use crate::tiff::fault::Fault;
use crate::tiff::pass::{Handling, Pass};
use crate::tiff::stream::{is_stretch, put};
use exif_base::{BigEndian, Endian, LittleEndian, Order};

/// The file as it was, and the order of its numbers.
#[derive(Clone, Copy)]
pub struct Old<'a> {
    pub order: Order,
    pub bytes: &'a [u8],
}

// Whether so many bytes from an offset on are in these.
fn is_within(bytes: &[u8], at: u64, len: u64) -> bool
    ensures value { result ≡ is_within bytes.now at len }
    ensures within { result ≡ true → at + len ≤ length bytes.now }
{
    at.saturating_add(len) <= bytes.len() as u64
}

impl<'a> Old<'a> {
    /// The 16-bit number at an offset.
    pub fn short(self, at: u64) -> Result<u16, Fault>
        ensures { result ≡ number_in (number_of self.entry.order) 2 self.entry.bytes.now at }
    {
        if !is_within(self.bytes, at, 2) {
            return Err(Fault::Broken);
        }
        Ok(match self.order {
            Order::Big => BigEndian::loadu16(self.bytes, at as usize),
            Order::Little => LittleEndian::loadu16(self.bytes, at as usize),
        })
    }

    /// The 32-bit number at an offset.
    pub fn long(self, at: u64) -> Result<u32, Fault>
        ensures { result ≡ number_in (number_of self.entry.order) 4 self.entry.bytes.now at }
    {
        if !is_within(self.bytes, at, 4) {
            return Err(Fault::Broken);
        }
        Ok(match self.order {
            Order::Big => BigEndian::loadu32(self.bytes, at as usize),
            Order::Little => LittleEndian::loadu32(self.bytes, at as usize),
        })
    }
}

/// Puts so many bytes of the old file into the new one.
pub fn keep(old: &[u8], from: u64, len: u64, new: &mut [u8], to: u64) -> Result<(), Fault>
    ensures { Puts result new.new (kept_bytes old.now from len to new.old) }
{
    if !is_within(old, from, len) || !is_within(new, to, len) {
        return Err(Fault::Broken);
    }
    let (from, to, len) = (from as usize, to as usize, len as usize);
    new[to..to + len].copy_from_slice(&old[from..from + len]);
    Ok(())
}

/// Puts so many bytes of the old file into the new one, where they were: without the metadata of
/// the JPEG stream that they are, if the picture is stored in these.
pub fn keep_stretch(
    old: &[u8],
    is_stream: bool,
    at: u64,
    len: u64,
    new: &mut [u8],
) -> Result<(), Fault>
    ensures { Puts result new.new (stretch_kept is_stream old.now at len new.old) }
{
    if !is_within(old, at, len) || !is_within(new, at, len) {
        return Err(Fault::Broken);
    }
    let (at, len) = (at as usize, len as usize);
    put(is_stream, &old[at..at + len], &mut new[at..at + len]);
    Ok(())
}

/// Refuses so many bytes from an offset on where they have metadata: a JPEG stream.
pub fn test_stretch(bytes: &[u8], is_stream: bool, at: u64, len: u64) -> Result<(), Fault>
    ensures { result ≡ stretch_tested is_stream bytes.now at len }
{
    if !is_within(bytes, at, len) {
        return Err(Fault::Broken);
    }
    let stretch = &bytes[at as usize..at as usize + len as usize];
    if is_stretch(is_stream, stretch, stretch) {
        Ok(())
    } else {
        Err(Fault::SharedBytes)
    }
}

// Refuses a new file without what stays of a stretch, where it was.
fn compare_stretch(old: &[u8], is_stream: bool, at: u64, len: u64, new: &[u8]) -> Result<(), Fault>
    ensures { result ≡ stretch_compared is_stream old.now at len new.now }
{
    if !is_within(old, at, len) || !is_within(new, at, len) {
        return Err(Fault::Broken);
    }
    let (at, len) = (at as usize, len as usize);
    if is_stretch(is_stream, &old[at..at + len], &new[at..at + len]) {
        Ok(())
    } else {
        Err(Fault::SharedBytes)
    }
}

/// What a walk does with so many bytes of a picture.
pub fn visit_stretch(
    old: &[u8],
    how: Handling,
    at: u64,
    len: u64,
    new: &mut [u8],
) -> Result<(), Fault>
    ensures { Puts result new.new (stretch_visited how old.now at len new.old) }
{
    match how.pass {
        Pass::Keep(_) => keep_stretch(old, how.is_stream, at, len, new),
        Pass::Pictures => compare_stretch(old, how.is_stream, at, len, new),
        Pass::Tags(_) => test_stretch(old, how.is_stream, at, len),
    }
}
