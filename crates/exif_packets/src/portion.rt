//! The portions of a long XMP packet in a JPEG file (XMP part 3, 1.1.3.1).

ghost use Rattle.std.specs.Prelude.{◌≡◌, ◌≤◌, length, IfOk};
ghost use Rattle.exif_packets.specs.Portions.{Joins, added, belongs, comes_next, extended, finished, if_portion, joined, prefix_view, nothing, offset_of, total_of, with_portions};

use crate::packet::{Form, Packet, content_of};
use exif_base::{BigEndian, Endian};
use std::alloc::{AllocError, Global};

/// Why the portions of a long packet are not joined.
#[derive(Clone, Copy, Debug, PartialEq, Eq)]
pub enum JoinError {
    /// The bytes from this offset of the packet on are not in the portion that comes next.
    Missing(usize),
    /// Memory ran out. The call may be tried again.
    OutOfMemory,
}

impl From<AllocError> for JoinError {
    ghost use Rattle.std.specs.Prelude.{◌≡◌};
    ghost use Rattle.exif_packets.specs.declared.portion.JoinError.TheVariants.{OutOfMemory};

    ghost from_gives = { λ _ e. e ≡ OutOfMemory };

    fn from(_e: AllocError) -> JoinError {
        JoinError::OutOfMemory
    }
}

// What is joined so far: how many bytes the packet has, and the first of them.
#[derive(Drop)]
struct Prefix {
    total: usize,
    bytes: Vec<u8>,
}

// Nothing yet.
fn nothing(alloc: Global) -> Prefix
    ensures { prefix_view result ≡ nothing }
{
    Prefix {
        total: 0,
        bytes: Vec::new(alloc),
    }
}

// Whether a portion is one of the packet with this identifier.
fn belongs(id: &[u8], content: &[u8]) -> bool
    ensures { result ≡ belongs id.now content.now }
{
    content.len() >= 40 && content.split_at(32).0 == id
}

// How many bytes the packet has, by a portion.
fn total_of(content: &[u8]) -> usize
    requires { 40 ≤ length content.now }
    ensures { result ≡ total_of content.now }
{
    BigEndian::loadu32(content, 32) as usize
}

// The offset of a portion in the packet.
fn offset_of(content: &[u8]) -> usize
    requires { 40 ≤ length content.now }
    ensures { result ≡ offset_of content.now }
{
    BigEndian::loadu32(content, 36) as usize
}

// Whether a portion comes next.
fn comes_next(joined: &Prefix, content: &[u8]) -> bool
    requires { 40 ≤ length content.now }
    ensures { result ≡ comes_next content.now (prefix_view joined.now) }
{
    let len = joined.bytes.len();
    offset_of(content) == len && (len == 0 || total_of(content) == joined.total)
}

// What is joined, with the bytes of a portion behind it.
fn extended(joined: Prefix, content: &[u8]) -> Result<Prefix, AllocError>
    requires { 40 ≤ length content.now }
    ensures { IfOk result (λ prefix.
        prefix_view prefix ≡ extended content.now (prefix_view joined)) }
{
    let Prefix { mut bytes, .. } = joined;
    bytes.extend_from_slice(content.split_at(40).1)?;
    let total = total_of(content);
    Ok(Prefix { total, bytes })
}

// The same, if the portion comes next.
fn added(joined: Prefix, content: &[u8]) -> Result<Prefix, JoinError>
    requires { 40 ≤ length content.now }
    ensures { Joins prefix_view result (added content.now (prefix_view joined)) }
{
    if comes_next(&joined, content) {
        return Ok(extended(joined, content)?);
    }
    Err(JoinError::Missing(joined.bytes.len()))
}

// The same, if the portion is one of the packet.
fn if_portion(file: &[u8], id: &[u8], packet: Packet, joined: Prefix) -> Result<Prefix, JoinError>
    ensures { Joins prefix_view result
        (if_portion file.now id.now packet (prefix_view joined)) }
{
    let content = content_of(packet, file);
    match packet.form {
        Form::XmpPortion if belongs(id, content) => added(joined, content),
        _ => Ok(joined),
    }
}

// The packet with all portions of it.
fn with_portions(
    alloc: Global,
    file: &[u8],
    id: &[u8],
    packets: &[Packet],
) -> Result<Prefix, JoinError>
    ensures { Joins prefix_view result (with_portions file.now id.now packets.now nothing) }
{
    let mut joined = nothing(alloc);
    for packet in packets {
        joined = if_portion(file, id, *packet, joined)?;
    }
    Ok(joined)
}

// The packet, if it is whole.
fn finished(joined: Prefix) -> Result<Vec<u8>, JoinError>
    ensures { Joins (λ v. v.items) result (finished (prefix_view joined)) }
{
    let len = joined.bytes.len();
    if len == 0 || len != joined.total {
        return Err(JoinError::Missing(len));
    }
    Ok(joined.bytes)
}

/// The rest of a long XMP packet: the portions of a file with this identifier, which the property
/// `xmpNote:HasExtendedXMP` of the first part has, joined in the order of the file.
///
/// Each portion begins where the one before it ends, and all have the length of the whole in them;
/// else it is refused with the offset of the first missing byte. Without any portion that offset is
/// 0. It takes the memory of the packet.
pub fn joined(
    alloc: Global,
    file: &[u8],
    packets: &[Packet],
    id: &[u8],
) -> Result<Vec<u8>, JoinError>
    ensures { Joins (λ v. v.items) result (joined file.now packets.now id.now) }
{
    let whole = with_portions(alloc, file, id, packets)?;
    finished(whole)
}
