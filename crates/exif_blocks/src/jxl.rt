//! A JPEG XL file with another XMP packet (ISO/IEC 18181-2, clause 9; XMP part 3).

ghost use Rattle.std.specs.Prelude.{◌≡◌, ◌++◌, ◌≤◌, length, IfOk};
ghost use Rattle.exif_types.specs.Refusals.{Gives};
ghost use Rattle.exif_blocks.specs.JxlBlocks.{behind_exif, behind_type, jxl_put, jxl_with_xmp, xmp_box, with_packet};
ghost use Rattle.exif_blocks.specs.PutViews.{packet_view};

use crate::blocks::{Block, Xmp, packet_alone};
use crate::step::Place;
use crate::walk::{blocks_put, exif_in};
use exif_inventory::State;
use exif_parts::insertion::{contained, front_len};
use exif_parts::split;
use exif_types::Error;
use std::alloc::{AllocError, Global};

// The first box of a file.
const SIGNATURE_LEN: usize = 12;

// The most bytes that a packet may have: the size of a box counts its header besides them.
const MAX_PACKET: usize = 4_294_967_287;

// The box of a packet.
fn xmp_box(alloc: Global, packet: &[u8]) -> Result<Vec<u8>, AllocError>
    requires { length packet.now ≤ 4294967287 }
    ensures { IfOk result (λ v. v.items ≡ xmp_box packet.now) }
{
    let size = 8 + packet.len() as u32;
    let mut new = Vec::from_slice(alloc, &size.to_be_bytes())?;
    new.extend_from_slice(b"xml ")?;
    new.extend_from_slice(packet)?;
    Ok(new)
}

// The file with a box behind its Exif data.
fn behind_exif(alloc: Global, new: &[u8], file: &[u8]) -> Result<Vec<u8>, AllocError>
    ensures { IfOk result (λ v. v.items ≡ behind_exif new.now file.now) }
{
    let (signature, boxes) = split(SIGNATURE_LEN, file);
    let front = Vec::from_slice(alloc, signature)?;
    blocks_put(
        Block::Xmp,
        Place::BehindExif,
        State::JxlBoxes,
        new,
        boxes,
        front,
    )
}

// The file with a box where new Exif data go.
fn behind_type(alloc: Global, new: &[u8], file: &[u8]) -> Result<Vec<u8>, AllocError>
    requires { 12 ≤ length file.now }
    ensures { IfOk result (λ v. v.items ≡ behind_type new.now file.now) }
{
    let (first, boxes) = split(front_len(file), file);
    let mut front = Vec::from_slice(alloc, first)?;
    front.extend_from_slice(new)?;
    blocks_put(
        Block::Xmp,
        Place::BehindExif,
        State::JxlBoxes,
        &[],
        boxes,
        front,
    )
}

// The file with a box in place of its packets.
fn jxl_put(alloc: Global, new: &[u8], file: &[u8]) -> Result<Vec<u8>, AllocError>
    requires { 12 ≤ length file.now }
    ensures { IfOk result (λ v. v.items ≡ jxl_put new.now file.now) }
{
    if exif_in(alloc, file)? {
        return behind_exif(alloc, new, file);
    }
    behind_type(alloc, new, file)
}

// The file with this packet in place of its own.
fn with_packet(alloc: Global, packet: &[u8], file: &[u8]) -> Result<Vec<u8>, Error>
    requires { 12 ≤ length file.now }
    ensures { Gives (λ v. v.items) result (with_packet packet.now file.now) }
{
    if packet.len() > MAX_PACKET {
        return Err(Error::TooBig("XMP packet too large"));
    }
    let new = xmp_box(alloc, packet)?;
    Ok(jxl_put(alloc, new.as_slice(), file)?)
}

/// The JPEG XL file with this XMP packet in place of its own, compressed ones among them: behind
/// its Exif data, in front of them where their box goes to the end of the file, or where new Exif
/// data go if it has none.
pub fn jxl_with_xmp(alloc: Global, xmp: &Xmp, file: &[u8]) -> Result<Vec<u8>, Error>
    ensures { Gives (λ v. v.items) result (jxl_with_xmp (packet_view xmp.now) file.now) }
{
    let file = contained(file)?;
    let packet = packet_alone(xmp)?;
    with_packet(alloc, packet, file)
}
