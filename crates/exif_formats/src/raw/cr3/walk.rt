//! The first box of a type in a file. What comes before it is skipped.

ghost use Rattle.std.specs.Prelude.{◌≡◌, ◌≢◌, ◌<◌, ◌≤◌, ◌-◌, ◌++◌, ℕ, suc, List, length, OnOk, IfOk, IfErr, IfSome, Ok, Err, Some};
ghost use Rattle.std.specs.Option.{option_map};
ghost use Rattle.exif_base.specs.Reads.{Counts};
ghost use Rattle.exif_base.specs.Told.{WhereTold};
ghost use Rattle.exif_types.specs.Refusals.{Fails, IsInterrupted, is_io, refusal_of};
ghost use Rattle.exif_types.specs.declared.error.Error.TheVariants.{OutOfMemory};
ghost use Rattle.exif_isobmff.specs.Boxes.{header_len};
ghost use Rattle.exif_segments.specs.Answer.{IsNamed, IsShort};
ghost use Rattle.exif_formats.specs.Cr3.{boxes_of, broken_cr3, cr3_refusals, first_box, held_front, held_in, held_of, movie_of};
ghost use Rattle.exif_formats.specs.Cr3Steps.{Comes, Goes, IsBehind, IsCut, IsFoundIn, IsFoundOf, IsFront, IsHeaded, IsHeld, IsTaken, box_behind, type_len, within};

use super::boxes::BROKEN;
use super::{CR3, is_cr3};
use crate::headers::{FileHeader, header_in, read_header};
use exif_base::{BigEndian, Endian, Source, read_front};
use exif_segments::util::{collect, fill, read_all, read_at_most, skip};
use exif_types::Error;
use std::alloc::Global;

// A file ends for this module after so many boxes.
const MAX_BOXES: u64 = u64::MAX;

/// What a box holds: so many of the bytes that follow, or all of them.
#[derive(Clone, Copy)]
pub struct Held {
    len: Option<u64>,
}

/// The next box of a file.
#[derive(Clone, Copy)]
pub enum Coming {
    /// The box that is sought, and what it holds.
    Sought(Held),
    /// Another box, and what is left of it.
    Other(Held),
    /// No box.
    End,
}

/// What came next in a file.
#[derive(Clone, Copy)]
pub enum Step {
    /// The box that is sought, and what it holds.
    Found(Held),
    /// Another box, which was skipped.
    Other,
    /// No box, or another one that runs to the end of the file.
    End,
}

// The header that these bytes are, of a box of a CR3 file.
fn boxed(bytes: &[u8]) -> Result<FileHeader, Error>
    requires { length bytes.now ≡ header_len bytes.now }
    ensures header { IfOk result (λ h. (rest : List ℕ)
        → first_box (bytes.now ++ rest) ≡ box_behind h.name h.len rest) }
    ensures refused { IfErr result (λ e. (refusal_of e ≡ Some broken_cr3)
        × ((rest : List ℕ) → first_box (bytes.now ++ rest) ≡ Err broken_cr3)) }
{
    header_in(bytes, BROKEN)
}

// The header of the next box, if there is one.
fn next_header<R: Source>(source: &mut R) -> Result<Option<FileHeader>, Error>
    ensures headed { IfOk result
        (λ header. WhereTold (R.left source.old) (R.left source.new) (IsHeaded header)) }
    ensures short { IfErr result (λ e. IsShort broken_cr3 e (R.left source.old)
        (λ xs. (0 < length xs) × (first_box xs ≡ Err broken_cr3))) }
    ensures no_memory { result ≢ Err OutOfMemory }
    ensures counts { Counts R.Source source.old source.new (is_io result) }
{
    let mut buf = [0u8; 16];
    let n = read_header(source, &mut buf, BROKEN)?;
    if n == 0 {
        return Ok(None);
    }
    let header = boxed(&buf[..n])?;
    Ok(Some(header))
}

// How many bytes of a payload of this length can be those of a type, which has so many.
fn type_len(len: Option<u64>, usertype: usize) -> usize
    ensures value { result ≡ type_len len usertype }
    ensures bound { result ≤ usertype }
    ensures within { IfSome len (λ l. result ≤ l) }
{
    match len {
        Some(len) if len < usertype as u64 => len as usize,
        _ => usertype,
    }
}

// What is left of a payload behind its first n bytes.
fn left_of(len: Option<u64>, n: usize) -> Held
    requires { IfSome len (λ l. n ≤ l) }
    ensures { result.len ≡ option_map (λ l. l - n) len }
{
    match len {
        Some(len) => Held {
            len: Some(len - n as u64),
        },
        None => Held { len: None },
    }
}

// Takes the type that is behind the header of a `uuid`, whose payload has so many bytes, or all.
// Without a type that is sought, no byte is taken.
fn take_type<R: Source>(source: &mut R, len: Option<u64>, usertype: &[u8]) -> Result<Coming, Error>
    requires { length usertype.now ≤ 16 }
    ensures taken { IfOk result
        (λ coming. IsTaken usertype.now len coming (R.left source.old) (R.left source.new)) }
    ensures interrupted { IfErr result IsInterrupted }
    ensures no_memory { result ≢ Err OutOfMemory }
    ensures counts { Counts R.Source source.old source.new (is_io result) }
{
    let mut buf = [0u8; 16];
    let most = type_len(len, usertype.len());
    let n = read_front(source, &mut buf[..most])?;
    let held = left_of(len, n);
    if buf[..n] == usertype[..] {
        return Ok(Coming::Sought(held));
    }
    Ok(Coming::Other(held))
}

// The next box, and whether it is of the type that is sought.
fn next_box<R: Source>(source: &mut R, name: &[u8; 4], usertype: &[u8]) -> Result<Coming, Error>
    requires { length usertype.now ≤ 16 }
    ensures comes { IfOk result (λ coming.
        Comes name.now usertype.now coming (R.left source.old) (R.left source.new)) }
    ensures refused { IfErr result (λ e. IfSome (R.left source.old)
        (λ xs. (n : ℕ) → Fails e (within name.now usertype.now (suc n) xs))) }
    ensures named { IfErr result (IsNamed cr3_refusals) }
    ensures no_memory { result ≢ Err OutOfMemory }
    ensures counts { Counts R.Source source.old source.new (is_io result) }
{
    let Some(header) = next_header(source)? else {
        return Ok(Coming::End);
    };
    if header.name == *name {
        let coming = take_type(source, header.len, usertype)?;
        return Ok(coming);
    }
    Ok(Coming::Other(Held { len: header.len }))
}

// The box that is sought, or else a step behind the next box.
fn next_step<R: Source>(source: &mut R, name: &[u8; 4], usertype: &[u8]) -> Result<Step, Error>
    requires { length usertype.now ≤ 16 }
    ensures goes { IfOk result (λ step.
        Goes name.now usertype.now step (R.left source.old) (R.left source.new)) }
    ensures refused { IfErr result (λ e. IfSome (R.left source.old)
        (λ xs. (n : ℕ) → Fails e (within name.now usertype.now (suc n) xs))) }
    ensures named { IfErr result (IsNamed cr3_refusals) }
    ensures no_memory { result ≢ Err OutOfMemory }
    ensures counts { Counts R.Source source.old source.new (is_io result) }
{
    match next_box(source, name, usertype)? {
        Coming::Sought(held) => Ok(Step::Found(held)),
        Coming::Other(held) => {
            let Some(len) = held.len else {
                return Ok(Step::End);
            };
            skip(source, len, BROKEN)?;
            Ok(Step::Other)
        }
        Coming::End => Ok(Step::End),
    }
}

// The first box of a type among the boxes that follow.
fn box_in<R: Source>(source: &mut R, name: &[u8; 4], usertype: &[u8]) -> Result<Option<Held>, Error>
    requires { length usertype.now ≤ 16 }
    ensures found { IfOk result (λ held.
        IsFoundIn name.now usertype.now held (R.left source.old) (R.left source.new)) }
    ensures refused { IfErr result (λ e. IfSome (R.left source.old)
        (λ xs. Fails e (held_in name.now usertype.now xs))) }
    ensures named { IfErr result (IsNamed cr3_refusals) }
    ensures no_memory { result ≢ Err OutOfMemory }
    ensures counts { Counts R.Source source.old source.new (is_io result) }
{
    for _ in 0..MAX_BOXES {
        match next_step(source, name, usertype)? {
            Step::Found(held) => return Ok(Some(held)),
            Step::Other => {}
            Step::End => return Ok(None),
        }
    }
    Ok(None)
}

// Skips the first box, `ftyp`, and answers whether boxes can follow: not where it runs to the end
// of the file.
fn skip_brand<R: Source>(source: &mut R) -> Result<bool, Error>
    ensures skipped { IfOk result
        (λ more. IsBehind more (R.left source.old) (R.left source.new)) }
    ensures refused { IfErr result
        (λ e. IfSome (R.left source.old) (λ xs. Fails e (boxes_of xs))) }
    ensures named { IfErr result (IsNamed cr3_refusals) }
    ensures no_memory { result ≢ Err OutOfMemory }
    ensures counts { Counts R.Source source.old source.new (is_io result) }
{
    let mut front = [0u8; 12];
    fill(source, &mut front, BROKEN)?;
    if !is_cr3(&front) {
        return Err(Error::InvalidFormat("Not a CR3 file"));
    }
    let size = BigEndian::loadu32(&front, 0);
    if size == 0 {
        return Ok(false);
    }
    if size < 12 {
        return Err(Error::InvalidFormat(BROKEN));
    }
    skip(source, u64::from(size) - 12, BROKEN)?;
    Ok(true)
}

// The first box of a type in a file. The source is then at what it holds.
fn find_box<R: Source>(
    source: &mut R,
    name: &[u8; 4],
    usertype: &[u8],
) -> Result<Option<Held>, Error>
    requires { length usertype.now ≤ 16 }
    ensures found { IfOk result (λ held.
        IsFoundOf name.now usertype.now held (R.left source.old) (R.left source.new)) }
    ensures refused { IfErr result (λ e. IfSome (R.left source.old)
        (λ xs. Fails e (held_of name.now usertype.now xs))) }
    ensures named { IfErr result (IsNamed cr3_refusals) }
    ensures no_memory { result ≢ Err OutOfMemory }
    ensures counts { Counts R.Source source.old source.new (is_io result) }
{
    if !skip_brand(source)? {
        return Ok(None);
    }
    box_in(source, name, usertype)
}

// All that a box holds.
fn collected<R: Source>(alloc: Global, source: &mut R, held: Held) -> Result<Vec<u8>, Error>
    ensures collected { IfOk result
        (λ v. IfSome (R.left source.old) (λ xs. IsHeld held.len v.items xs)) }
    ensures short { IfErr result
        (λ e. IsShort broken_cr3 e (R.left source.old) (IsCut held.len)) }
    ensures counts { Counts R.Source source.old source.new (is_io result) }
{
    match held.len {
        Some(len) => collect(alloc, source, len, BROKEN),
        None => read_all(alloc, source),
    }
}

/// The payload of the first `moov` of a file.
pub fn first_movie<R: Source>(alloc: Global, source: &mut R) -> Result<Vec<u8>, Error>
    ensures found { IfOk result
        (λ v. IfSome (R.left source.old) (λ xs. movie_of xs ≡ Ok v.items)) }
    ensures refused { IfErr result
        (λ e. IfSome (R.left source.old) (λ xs. Fails e (movie_of xs))) }
    ensures named { IfErr result (IsNamed cr3_refusals) }
    ensures memory { IfErr result (λ e. e ≡ OutOfMemory → IfSome (R.left source.old)
        (λ xs. IfErr (movie_of xs) (λ r. r ≡ broken_cr3))) }
    ensures counts { Counts R.Source source.old source.new (is_io result) }
{
    let Some(held) = find_box(source, b"moov", &[])? else {
        return Err(Error::NotFound(CR3));
    };
    collected(alloc, source, held)
}

// The first bytes of what a box holds, at most so many. The others are skipped.
fn front_of<R: Source>(
    alloc: Global,
    source: &mut R,
    held: Held,
    most: u64,
) -> Result<Vec<u8>, Error>
    ensures front { IfOk result
        (λ v. IfSome (R.left source.old) (λ xs. IsFront held.len most v.items xs)) }
    ensures short { IfErr result
        (λ e. IsShort broken_cr3 e (R.left source.old) (IsCut held.len)) }
    ensures counts { Counts R.Source source.old source.new (is_io result) }
{
    let mut front = Vec::new(alloc);
    let Some(len) = held.len else {
        read_at_most(source, &mut front, most)?;
        return Ok(front);
    };
    let n = read_at_most(source, &mut front, most.min(len))?;
    skip(source, len - n, BROKEN)?;
    Ok(front)
}

/// The first bytes of what the first box of a type holds in a CR3 file: so many, or as many as it
/// has. `None` where there is no such box. A box of the type `uuid` has 16 bytes more of its type;
/// any other has none.
///
/// Looked at are the boxes of the file itself, at most 2^64 - 1, and not those within them. The
/// refusals are those of [`find`](super::find) up to the box that is sought, which is to be whole,
/// too. What comes before it is skipped without memory.
pub fn find_front<R: Source>(
    alloc: Global,
    source: &mut R,
    name: &[u8; 4],
    usertype: &[u8],
    most: u64,
) -> Result<Option<Vec<u8>>, Error>
    requires { length usertype.now ≤ 16 }
    ensures found { IfOk result (λ front. IfSome (R.left source.old) (λ xs.
        held_front name.now usertype.now most xs ≡ Ok (option_map (λ v. v.items) front))) }
    ensures refused { IfErr result (λ e. IfSome (R.left source.old)
        (λ xs. Fails e (held_front name.now usertype.now most xs))) }
    ensures named { IfErr result (IsNamed cr3_refusals) }
    ensures counts { Counts R.Source source.old source.new (is_io result) }
{
    let Some(held) = find_box(source, name, usertype)? else {
        return Ok(None);
    };
    let front = front_of(alloc, source, held, most)?;
    Ok(Some(front))
}
