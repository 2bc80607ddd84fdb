//! A WebP file with another XMP packet or colour profile (WebP Container Specification, "Extended
//! File Format").

ghost use Rattle.std.specs.Prelude.{◌≡◌, ◌++◌, ◌<◌, ◌≤◌, ◌^◌, true, length, IfErr, IfOk, IsSome, OnOk};
ghost use Rattle.exif_types.specs.Refusals.{Gives, refusal_of};
ghost use Rattle.exif_blocks.specs.PutViews.{packet_view};
ghost use Rattle.exif_blocks.specs.WebpBlocks.{file_put, is_extended, new_size, resized, webp_with_profile, webp_with_xmp, with_color, with_flag, with_packet};
ghost use Rattle.exif_parts.specs.WebpChunks.{chunk_bytes};

use crate::blocks::{Block, Xmp, packet_alone};
use crate::step::Place;
use crate::walk::blocks_put;
use exif_base::{Endian, LittleEndian};
use exif_inventory::State;
use exif_parts::insertion::{add_chunk, body_space};
use exif_parts::split;
use exif_types::Error;
use std::alloc::{AllocError, Global};

// The flags of an XMP packet and of a colour profile in the extended header, and their offset.
const XMP: u8 = 0x04;

const PROFILE: u8 = 0x20;

const FLAGS: usize = 20;

// Where the extended header ends.
const HEADER: usize = 30;

// Whether a file has the extended header.
fn is_extended(file: &[u8]) -> bool
    ensures answer { result ≡ is_extended file.now }
    ensures long { result ≡ true → 30 ≤ length file.now }
{
    file.len() >= HEADER && file[12..16] == b"VP8X"[..]
}

// The flags with one of them.
fn with_flag(flag: u8, flags: u8) -> u8
    ensures { result ≡ with_flag flag flags }
{
    flags | flag
}

// What a file counts in its header that is so much longer than an old one.
fn new_size(old: &[u8], len: usize) -> usize
    requires long { 8 ≤ length old.now }
    requires len { len < 2 ^ 63 }
    ensures { result ≡ new_size old.now len }
{
    (LittleEndian::loadu32(old, 4) as usize + len).saturating_sub(old.len())
}

// The file that was made of an old one, with its size and a flag in its header.
fn resized(old: &[u8], flag: u8, new: Vec<u8>, too_large: &'static str) -> Result<Vec<u8>, Error>
    ensures made { Gives (λ v. v.items) result (resized old.now flag too_large.now new.items) }
    ensures refused { IfErr result (λ e. IsSome (refusal_of e)) }
{
    if !is_extended(old) || !is_extended(new.as_slice()) {
        return Err(Error::NotSupported("WebP file without an extended header"));
    }
    let size = new_size(old, new.len());
    if size > u32::MAX as usize {
        return Err(Error::TooBig(too_large));
    }
    let mut new = new;
    LittleEndian::writeu32(new.as_mut_slice(), 4, size as u32);
    new[FLAGS] = with_flag(flag, new[FLAGS]);
    Ok(new)
}

// The chunk of a name.
fn chunk_of(alloc: Global, name: &[u8], payload: &[u8]) -> Result<Vec<u8>, AllocError>
    ensures { IfOk result (λ v. v.items ≡ chunk_bytes name.now payload.now) }
{
    let mut chunk = Vec::new(alloc);
    add_chunk(&mut chunk, name, payload, &[])?;
    Ok(chunk)
}

// The chunks of a file, which have so much space, with a new one, behind its header as it was.
fn file_put(
    alloc: Global,
    block: Block,
    place: Place,
    space: u64,
    chunk: &[u8],
    file: &[u8],
) -> Result<Vec<u8>, AllocError>
    ensures { IfOk result (λ v. v.items ≡ file_put block place space chunk.now file.now) }
{
    let (header, chunks) = split(12, file);
    let front = Vec::from_slice(alloc, header)?;
    blocks_put(block, place, State::Chunks(space), chunk, chunks, front)
}

// The file with this packet in place of its own.
fn with_packet(alloc: Global, space: u64, packet: &[u8], file: &[u8]) -> Result<Vec<u8>, Error>
    ensures { Gives (λ v. v.items) result (with_packet space packet.now file.now) }
{
    if packet.len() > u32::MAX as usize {
        return Err(Error::TooBig("XMP packet too large"));
    }
    let chunk = chunk_of(alloc, b"XMP ", packet)?;
    let new = file_put(
        alloc,
        Block::Xmp,
        Place::BehindExif,
        space,
        chunk.as_slice(),
        file,
    )?;
    resized(file, XMP, new, "XMP packet too large")
}

/// The WebP file with this XMP packet in place of its own: behind its Exif data, or behind all
/// chunks where it has none.
pub fn webp_with_xmp(alloc: Global, xmp: &Xmp, file: &[u8]) -> Result<Vec<u8>, Error>
    ensures { Gives (λ v. v.items) result (webp_with_xmp (packet_view xmp.now) file.now) }
{
    let space = body_space(file)?;
    let packet = packet_alone(xmp)?;
    with_packet(alloc, space, packet, file)
}

// The file with this colour profile in place of its own.
fn with_color(alloc: Global, space: u64, profile: &[u8], file: &[u8]) -> Result<Vec<u8>, Error>
    ensures { Gives (λ v. v.items) result (with_color space profile.now file.now) }
{
    if profile.len() > u32::MAX as usize {
        return Err(Error::TooBig("Colour profile too large"));
    }
    let chunk = chunk_of(alloc, b"ICCP", profile)?;
    let new = file_put(
        alloc,
        Block::Profile,
        Place::BehindFirst,
        space,
        chunk.as_slice(),
        file,
    )?;
    resized(file, PROFILE, new, "Colour profile too large")
}

/// The WebP file with this colour profile in place of its own, behind its extended header.
pub fn webp_with_profile(alloc: Global, profile: &[u8], file: &[u8]) -> Result<Vec<u8>, Error>
    ensures { Gives (λ v. v.items) result (webp_with_profile profile.now file.now) }
{
    let space = body_space(file)?;
    with_color(alloc, space, profile, file)
}
