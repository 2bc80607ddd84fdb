//! How much of a JPEG file has its packets: what comes in front of the first scan (ITU-T T.81,
//! B.1.1).

ghost use Rattle.std.specs.Prelude.{◌≡◌, ◌<◌, ◌≤◌, length, IfSome};
ghost use Rattle.exif_packets.specs.Heads.{IsWithin, behind, head_len, step_at, step_of};

use exif_inventory::{Kind, Piece, State, is_jpeg, stream_piece};

// What the piece at the front of bytes says of the head.
enum Step {
    // It ends behind so many bytes: those of the header of the first scan, or of the end of the
    // image.
    Ends(usize),
    // It goes on behind so many.
    Goes(usize),
    // The piece is longer than the bytes.
    Cut,
}

// So many bytes and more, if there are.
fn behind(len: usize, more: usize, bytes: &[u8]) -> usize
    ensures value { result ≡ behind len more bytes.now }
    ensures within { result ≤ length bytes.now }
{
    len.saturating_add(more).min(bytes.len())
}

// What a piece at the front of bytes says.
fn step_of(piece: Piece, bytes: &[u8]) -> Step
    ensures value { result ≡ step_of piece bytes.now }
    ensures within { IsWithin (length bytes.now) result }
{
    match piece.next {
        State::Stream(_, true) => Step::Ends(behind(piece.len, 0, bytes)),
        State::Stream(_, false) => Step::Goes(behind(piece.len, 0, bytes)),
        State::Resources(_, _, space) => Step::Goes(behind(piece.len, space, bytes)),
        _ => match piece.kind {
            Kind::Broken => Step::Cut,
            _ => Step::Ends(behind(piece.len, 0, bytes)),
        },
    }
}

// The same of the piece that comes next in front of the first scan.
fn step_at(bytes: &[u8]) -> Step
    requires { 0 < length bytes.now }
    ensures value { result ≡ step_at bytes.now }
    ensures within { IsWithin (length bytes.now) result }
{
    step_of(stream_piece(0, false, bytes), bytes)
}

/// How many bytes of a JPEG file come up to its first scan: those up to the end of the header of
/// that, or up to the end of the image. `None` where the file goes on behind this prefix of it, and
/// for a file of another format.
///
/// All packets that are marker segments in front of the picture are in these bytes, with the
/// portions of a long one: [`packets`](crate::packets) lists them. It takes no memory, and its work
/// grows with the prefix.
pub fn head_len(prefix: &[u8]) -> Option<usize>
    ensures value { result ≡ head_len prefix.now }
    ensures within { IfSome result (λ len. len ≤ length prefix.now) }
{
    if !is_jpeg(prefix) {
        return None;
    }
    let mut at = 2;
    for _ in 0..prefix.len() {
        if at == prefix.len() {
            return None;
        }
        match step_at(&prefix[at..]) {
            Step::Ends(len) => return Some(at + len),
            Step::Goes(len) => at += len,
            Step::Cut => return None,
        }
    }
    None
}
