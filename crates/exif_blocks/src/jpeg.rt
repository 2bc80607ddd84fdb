//! A JPEG file with another XMP packet or colour profile, and the segments that hold them (ITU-T
//! T.81, B.1.1.4).

ghost use Rattle.std.specs.Prelude.{◌≡◌, ◌+◌, ◌++◌, ◌≤◌, ◌∷◌, [], length, codes, IfOk, OnOk};
ghost use Rattle.exif_types.specs.Refusals.{Answers, Gives};
ghost use Rattle.exif_blocks.specs.JpegBlocks.{count_for, jpeg_place, jpeg_with, piece, pieces, profile_segments, segment, stream_in, xmp_segments};
ghost use Rattle.exif_blocks.specs.PutViews.{packet_view};

use crate::blocks::{Block, Xmp};
use crate::step::Place;
use crate::walk::{blocks_put, exif_in};
use exif_inventory::{State, is_jpeg};
use exif_parts::split;
use exif_types::Error;
use std::alloc::{AllocError, Global};

// The markers of XMP packets and of colour profiles, and their identifiers.
const APP1: u8 = 0xe1;

const APP2: u8 = 0xe2;

const XMP: &[u8] = b"http://ns.adobe.com/xap/1.0/\0";

// How many bytes of a packet (XMP part 3, 1.1.3) and of a profile (ICC.1:2022, B.4) fit into a
// segment, and how many segments a profile has at most.
const MAX_PACKET: usize = 65_502;

const MAX_PIECE: usize = 65_519;

const MAX_COUNT: usize = 255;

// Adds a segment: its marker, its length, an identifier and bytes.
fn add_segment(out: &mut Vec<u8>, marker: u8, id: &[u8], bytes: &[u8]) -> Result<(), AllocError>
    requires { length id.now + length bytes.now + 2 ≤ 65535 }
    ensures { OnOk result (out.new.items ≡ out.old.items ++ segment marker id.now bytes.now) }
{
    let len = (id.len() + bytes.len() + 2) as u16;
    out.extend_from_slice(&[0xff, marker])?;
    out.extend_from_slice(&len.to_be_bytes())?;
    out.extend_from_slice(id)?;
    out.extend_from_slice(bytes)
}

/// The segments of an XMP packet.
pub fn xmp_segments(alloc: Global, xmp: &Xmp) -> Result<Vec<u8>, Error>
    ensures { Gives (λ v. v.items) result (xmp_segments (packet_view xmp.now)) }
{
    if xmp.packet.len() > MAX_PACKET {
        return Err(Error::TooBig("XMP packet too large"));
    }
    let mut out = Vec::new(alloc);
    add_segment(&mut out, APP1, XMP, xmp.packet.as_slice())?;
    out.extend_from_slice(xmp.extension.as_slice())?;
    Ok(out)
}

// In how many segments a profile of this length is.
fn count_for(len: usize) -> usize
    ensures { result ≡ count_for len }
{
    len / MAX_PIECE + usize::from(len % MAX_PIECE != 0)
}

// Adds a segment with a piece of a profile: its number, how many there are, and its bytes.
fn add_piece(out: &mut Vec<u8>, number: u8, count: u8, bytes: &[u8]) -> Result<(), AllocError>
    requires { length bytes.now ≤ 65519 }
    ensures { OnOk result (out.new.items ≡ out.old.items ++ piece number count bytes.now) }
{
    let mut id = *b"ICC_PROFILE\0..";
    id[12] = number;
    id[13] = count;
    add_segment(out, APP2, &id, bytes)
}

/// The segments of a colour profile.
pub fn profile_segments(alloc: Global, profile: &[u8]) -> Result<Vec<u8>, Error>
    ensures { Gives (λ v. v.items) result (profile_segments profile.now) }
{
    let count = count_for(profile.len());
    if count > MAX_COUNT {
        return Err(Error::TooBig("Colour profile too large"));
    }
    let mut out = Vec::new(alloc);
    let mut rest = profile;
    for index in 0..count {
        let (bytes, behind) = split(MAX_PIECE, rest);
        add_piece(&mut out, (index + 1) as u8, count as u8, bytes)?;
        rest = behind;
    }
    Ok(out)
}

// The stream of a file behind its first marker.
fn stream_in(file: &[u8]) -> Result<&[u8], Error>
    ensures { Answers (λ stream. stream.now) result (stream_in file.now) }
{
    if file.len() < 2 {
        return Err(Error::InvalidFormat("Broken JPEG file"));
    }
    if !is_jpeg(file) {
        return Err(Error::InvalidFormat("Not a JPEG file"));
    }
    Ok(split(2, file).1)
}

// Where new segments go, by whether the file has Exif data.
fn jpeg_place(exif: bool) -> Place
    ensures { result ≡ jpeg_place exif }
{
    if exif {
        Place::BehindExif
    } else {
        Place::BeforeMarker
    }
}

/// The JPEG file with these segments in place of its own: behind its Exif data, or in front of the
/// first marker segment that is no APP0 where it has none.
pub fn jpeg_with(
    alloc: Global,
    block: Block,
    segments: &[u8],
    file: &[u8],
) -> Result<Vec<u8>, Error>
    ensures { Gives (λ v. v.items) result (jpeg_with block segments.now file.now) }
{
    let stream = stream_in(file)?;
    let place = jpeg_place(exif_in(alloc, file)?);
    let front = Vec::from_slice(alloc, &[0xff, 0xd8])?;
    Ok(blocks_put(
        block,
        place,
        State::Stream(0, false),
        segments,
        stream,
        front,
    )?)
}
