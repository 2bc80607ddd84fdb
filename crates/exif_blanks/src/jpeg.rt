//! What stays of JPEG streams.

ghost use Rattle.std.specs.Prelude.{◌≡◌, ◌<◌, ◌≤◌, ◌^◌, length};
ghost use Rattle.exif_blanks.specs.JpegStreams.{full_len, is_scanned, marker_kept, piece_kept, start_step, stream_step};

use crate::bytes::lesser;
use crate::steps::{Place, Step, whole};
use exif_inventory::{Kind, State, fill_len, is_jpeg, stream_piece};

// How many bytes of a marker segment stay, whose marker follows so many ffs.
fn marker_kept(fills: usize) -> usize
    requires { fills < 2 ^ 63 }
    ensures { result ≡ marker_kept fills }
{
    if fills == 0 { 0 } else { fills + 3 }
}

// How many bytes of a piece of so many stay.
fn piece_kept(kind: Kind, fills: usize, len: usize) -> usize
    requires { fills < 2 ^ 63 }
    ensures value { result ≡ piece_kept kind fills len }
    ensures within { result ≤ len }
{
    match kind {
        Kind::Picture | Kind::IccProfile => len,
        Kind::Jfif | Kind::Adobe => lesser(len, fills + 15),
        _ => lesser(len, marker_kept(fills)),
    }
}

// How many of all bytes a piece has, with the resources that it begins.
fn full_len(state: State, len: usize, all: usize) -> usize
    requires { len ≤ all }
    ensures value { result ≡ full_len state len all }
    ensures least { len ≤ result }
    ensures within { result ≤ all }
{
    match state {
        State::Stream(_, _) => len,
        State::Resources(_, _, n) => len + lesser(n, all - len),
        _ => all,
    }
}

// Whether a scan began.
fn is_scanned(state: State) -> bool
    ensures { result ≡ is_scanned state }
{
    match state {
        State::Stream(_, scanned) | State::Resources(_, scanned, _) => scanned,
        _ => false,
    }
}

/// What becomes of the bytes at the front of a stream behind its first marker.
pub fn stream_step(scanned: bool, bytes: &[u8]) -> Step
    requires { 0 < length bytes.now }
    ensures { result ≡ stream_step scanned bytes.now }
{
    let piece = stream_piece(0, scanned, bytes);
    Step {
        len: full_len(piece.next, piece.len, bytes.len()),
        kept: piece_kept(piece.kind, fill_len(bytes), piece.len),
        fill: 0,
        next: Place::Stream(is_scanned(piece.next)),
    }
}

/// The first marker of a stream, or bytes that are none, which all stay.
pub fn start_step(bytes: &[u8]) -> Step
    ensures { result ≡ start_step bytes.now }
{
    if is_jpeg(bytes) {
        whole(2, Place::Stream(false))
    } else {
        whole(bytes.len(), Place::Rest)
    }
}
