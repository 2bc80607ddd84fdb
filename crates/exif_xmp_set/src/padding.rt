//! The padding at the end of a packet.

ghost use Rattle.std.specs.Prelude.{◌≡◌, ◌≤◌, ◌+◌, ◌-◌, ◌++◌, length, IfSome, OnOk};
ghost use Rattle.exif_xmp_set.specs.Padding.{fitted, last_gap, padding_of, room_of};

use crate::context::{bytes_behind, first_bytes};
use exif_xml::Span;
use exif_xml::scan::is_space;
use std::alloc::{AllocError, Global};

// The white space just before the last `<`.
fn last_gap(bytes: &[u8]) -> Span
    ensures value { result ≡ last_gap (record { start = 0; end = 0 }) 0 0 bytes.now }
    ensures order { result.start ≤ result.end }
    ensures within { result.end ≤ length bytes.now }
{
    let mut gap = Span { start: 0, end: 0 };
    let mut start = 0;
    for i in 0..bytes.len() {
        if bytes[i] == b'<' {
            gap = Span { start, end: i };
        }
        if !is_space(bytes[i]) {
            start = i + 1;
        }
    }
    gap
}

// The padding of a packet, of which this is the end; `None` where it has no trailer.
fn padding_of(tail: &[u8]) -> Option<Span>
    ensures value { result ≡ padding_of tail.now }
    ensures order { IfSome result (λ p. p.start ≤ p.end) }
    ensures within { IfSome result (λ p. p.end ≤ length tail.now) }
{
    let gap = last_gap(tail);
    if bytes_behind(tail, gap.end).starts_with(b"<?xpacket end=") {
        return Some(gap);
    }
    None
}

// The padding of a packet, of which this is the end, if it has room for a value that grows from
// `old` bytes to `new`.
fn room_of(tail: &[u8], old: usize, new: usize) -> Option<Span>
    ensures value { result ≡ room_of old new tail.now }
    ensures within { IfSome result (λ p. p.start + (new - old) ≤ length tail.now) }
{
    match padding_of(tail) {
        Some(padding) => {
            if new.saturating_sub(old) <= padding.end - padding.start {
                return Some(padding);
            }
            None
        }
        None => None,
    }
}

/// Appends the end of a packet, behind a value that has `new` bytes where it had `old`: its padding
/// takes up the difference, if it has room.
pub fn push_fitted(
    alloc: Global,
    out: &mut Vec<u8>,
    tail: &[u8],
    old: usize,
    new: usize,
) -> Result<(), AllocError>
    ensures { OnOk result (out.new.items ≡ out.old.items ++ fitted old new tail.now) }
{
    match room_of(tail, old, new) {
        Some(padding) => {
            let spaces = vec![in alloc; b' '; old.saturating_sub(new)]?;
            out.extend_from_slice(first_bytes(tail, padding.start))?;
            out.extend_from_slice(&spaces)?;
            out.extend_from_slice(bytes_behind(tail, padding.start + new.saturating_sub(old)))
        }
        None => out.extend_from_slice(tail),
    }
}
