//! The Exif data of a CR3 file of Canon (its boxes: ISO/IEC 14496-12:2015, 4.2, 4.3).

ghost use Rattle.std.specs.Prelude.{◌≡◌, ◌≤◌, length, IfOk, IfErr, IfSome, Ok, false};
ghost use Rattle.std.specs.Option.{option_map};
ghost use Rattle.exif_base.specs.Reads.{Counts};
ghost use Rattle.exif_types.specs.Refusals.{Answers, Fails, Gives, is_io};
ghost use Rattle.exif_types.specs.declared.error.Error.TheVariants.{OutOfMemory};
ghost use Rattle.exif_segments.specs.Answer.{IsNamed};
ghost use Rattle.exif_formats.specs.Cr3.{begins_cr3, broken_cr3, canon_parts, canon_thumbnail, cr3_answer, cr3_refusals, cr3_thumbnail, movie_of, movie_parts, movie_thumbnail, thumbnail_in, whole_front};
ghost use Rattle.exif_formats.specs.Cr3Steps.{parts_view};

mod boxes;
mod walk;

pub use self::boxes::first_held;
pub use self::walk::find_front;
use self::walk::first_movie;
use exif_base::{BigEndian, Endian, Source};
use exif_types::Error;
use std::alloc::{AllocError, Global};

// What is absent where a file has no Exif data.
const CR3: &str = "CR3";

// Canon's type of a `uuid` box.
const CANON: [u8; 16] = [
    0x85, 0xc0, 0xb6, 0x87, 0x82, 0x0f, 0x11, 0xe0, 0x81, 0x11, 0xf4, 0xce, 0x46, 0x2b, 0x6a, 0x48,
];

/// The directories of a CR3 file, each as TIFF data of its own.
#[derive(Drop)]
pub struct Parts {
    /// `CMT1`: the primary directory.
    pub primary: Vec<u8>,
    /// `CMT2`: the Exif directory.
    pub exif: Option<Vec<u8>>,
    /// `CMT4`: the GPS directory.
    pub gps: Option<Vec<u8>>,
}

/// Whether the bytes begin as a CR3 file does: a box `ftyp` with the major brand `crx `.
pub fn is_cr3(bytes: &[u8]) -> bool
    ensures { result ≡ begins_cr3 bytes.now }
{
    bytes.len() >= 12 && bytes[4..8] == b"ftyp"[..] && bytes[8..12] == b"crx "[..]
}

// A copy of bytes that may be absent.
fn copied(alloc: Global, bytes: Option<&[u8]>) -> Result<Option<Vec<u8>>, AllocError>
    ensures { IfOk result (λ v. option_map (λ v. v.items) v ≡ option_map (λ b. b.now) bytes.entry) }
{
    match bytes {
        Some(bytes) => Ok(Some(bytes.to_vec(alloc)?)),
        None => Ok(None),
    }
}

// The directories in Canon's `uuid`.
fn canon_parts(alloc: Global, canon: &[u8]) -> Result<Parts, Error>
    ensures gives { Gives parts_view result (canon_parts canon.now) }
    ensures named { IfErr result (IsNamed cr3_refusals) }
    ensures no_io { is_io result ≡ false }
{
    let Some(primary) = first_held(canon, b"CMT1", &[])? else {
        return Err(Error::NotFound(CR3));
    };
    let exif = first_held(canon, b"CMT2", &[])?;
    let gps = first_held(canon, b"CMT4", &[])?;
    Ok(Parts {
        primary: primary.to_vec(alloc)?,
        exif: copied(alloc, exif)?,
        gps: copied(alloc, gps)?,
    })
}

// The directories in the payload of `moov`.
fn movie_parts(alloc: Global, movie: &[u8]) -> Result<Parts, Error>
    ensures gives { Gives parts_view result (movie_parts movie.now) }
    ensures named { IfErr result (IsNamed cr3_refusals) }
    ensures no_io { is_io result ≡ false }
{
    let Some(canon) = first_held(movie, b"uuid", &CANON)? else {
        return Err(Error::NotFound(CR3));
    };
    canon_parts(alloc, canon)
}

/// The directories of a CR3 file.
///
/// They are in the first `moov` of the file, in the first `uuid` there of the type
/// 85c0b687-820f-11e0-8111-f4ce462b6a48, as the first `CMT1`, the first `CMT2` and the first
/// `CMT4` of that. A box of size 0 runs to the end of what is around it. At most 2^64 - 1 boxes of
/// the file are read.
///
/// Refusals: `Broken CR3 file` where the bytes end within the first 12, or where a box is cut off
/// or has a size under that of its header or over that of what is around it, up to the box that is
/// sought; `Not a CR3 file`; and NotFound `CR3` where there is no `moov`, no such `uuid` or no
/// `CMT1`. The first box, `ftyp`, is to have its brand within.
///
/// Boxes before `moov` are skipped without memory; the payload of `moov` is collected, and the
/// directories are copied from it: `OutOfMemory` comes only there. How far the source was read is
/// left open.
pub fn find<R: Source>(alloc: Global, source: &mut R) -> Result<Parts, Error>
    ensures found { IfOk result
        (λ parts. IfSome (R.left source.old) (λ xs. cr3_answer xs ≡ Ok (parts_view parts))) }
    ensures refused { IfErr result
        (λ e. IfSome (R.left source.old) (λ xs. Fails e (cr3_answer xs))) }
    ensures named { IfErr result (IsNamed cr3_refusals) }
    ensures memory { IfErr result (λ e. e ≡ OutOfMemory → IfSome (R.left source.old)
        (λ xs. IfErr (movie_of xs) (λ r. r ≡ broken_cr3))) }
    ensures counts { Counts R.Source source.old source.new (is_io result) }
{
    let payload = first_movie(alloc, source)?;
    let parts = movie_parts(alloc, &payload)?;
    Ok(parts)
}

// So many bytes, if they are there.
fn whole_front(len: u32, bytes: &[u8]) -> Option<&[u8]>
    ensures { option_map (λ b. b.now) result ≡ whole_front len bytes.now }
{
    let len = len as usize;
    if bytes.len() < len {
        return None;
    }
    Some(&bytes[..len])
}

// The JPEG data in the payload of `THMB`.
fn thumbnail_in(payload: &[u8]) -> Option<&[u8]>
    ensures { option_map (λ b. b.now) result ≡ thumbnail_in payload.now }
{
    if payload.len() < 16 {
        return None;
    }
    whole_front(BigEndian::loadu32(payload, 8), &payload[16..])
}

// The same of Canon's `uuid`.
fn canon_thumbnail(canon: &[u8]) -> Result<Option<&[u8]>, Error>
    ensures answers { Answers (option_map (λ b. b.now)) result (canon_thumbnail canon.now) }
    ensures named { IfErr result (IsNamed cr3_refusals) }
{
    let Some(payload) = first_held(canon, b"THMB", &[])? else {
        return Ok(None);
    };
    Ok(thumbnail_in(payload))
}

// The same of the payload of `moov`.
fn movie_thumbnail(movie: &[u8]) -> Result<Option<&[u8]>, Error>
    ensures answers { Answers (option_map (λ b. b.now)) result (movie_thumbnail movie.now) }
    ensures named { IfErr result (IsNamed cr3_refusals) }
{
    let Some(canon) = first_held(movie, b"uuid", &CANON)? else {
        return Err(Error::NotFound(CR3));
    };
    canon_thumbnail(canon)
}

/// The JPEG data of the thumbnail of a CR3 file: those of the first `THMB` in the `uuid` where
/// [`find`] finds the directories. `None` where there is no `THMB`, or its data are cut off.
///
/// The refusals up to there are those of [`find`], and so is the memory that it takes.
pub fn find_thumbnail<R: Source>(alloc: Global, source: &mut R) -> Result<Option<Vec<u8>>, Error>
    ensures found { IfOk result (λ jpeg. IfSome (R.left source.old)
        (λ xs. cr3_thumbnail xs ≡ Ok (option_map (λ v. v.items) jpeg))) }
    ensures refused { IfErr result
        (λ e. IfSome (R.left source.old) (λ xs. Fails e (cr3_thumbnail xs))) }
    ensures named { IfErr result (IsNamed cr3_refusals) }
    ensures counts { Counts R.Source source.old source.new (is_io result) }
{
    let payload = first_movie(alloc, source)?;
    let jpeg = movie_thumbnail(&payload)?;
    Ok(copied(alloc, jpeg)?)
}
