//! Spans of a file, each with its role.

ghost use Rattle.std.specs.Prelude.{◌≡◌, drop, length, take};
ghost use Rattle.std.specs.List.{list_any};
ghost use Rattle.exif_inventory_heif.specs.Spans.{has, only, part_kind, part_of, data_from, payload};

use crate::role::{Role, same_role};
use exif_inventory::{Kind, Part};

/// A span of a file.
#[derive(Clone, Copy, Debug)]
pub struct Span {
    /// What it is.
    pub role: Role,
    /// The offset of its first byte.
    pub from: usize,
    /// The offset of its content.
    pub content: usize,
    /// The offset behind its last byte.
    pub end: usize,
}

/// The layout of a file.
#[derive(Drop)]
pub struct Layout {
    /// Its spans, in order.
    pub spans: Vec<Span>,
    /// Whether what may hold the picture or metadata is the picture's: whether the data of all
    /// items that are no pictures are spans of their own.
    pub judged: bool,
}

/// Whether a span has this role.
pub fn has(wanted: Role, spans: &[Span]) -> bool
    ensures { result ≡ has wanted spans.now }
{
    for span in spans {
        if same_role(wanted, span.role) {
            return true;
        }
    }
    false
}

/// The span with this role, if there is one, and no other.
pub fn only(wanted: Role, spans: &[Span]) -> Option<Span>
    ensures { result ≡ only wanted spans.now }
{
    let mut rest = spans;
    while let Some((first, others)) = rest.split_first() {
        if same_role(wanted, first.role) {
            return if has(wanted, others) {
                None
            } else {
                Some(*first)
            };
        }
        rest = others;
    }
    None
}

/// The bytes between two offsets, as far as the file has them.
pub fn bytes_between(from: usize, end: usize, file: &[u8]) -> &[u8]
    ensures { result.now ≡ drop from (take end file.now) }
{
    let front = &file[..file.len().min(end)];
    &front[front.len().min(from)..]
}

/// What a span of a file holds, as far as the file has it.
pub fn payload(span: Span, file: &[u8]) -> &[u8]
    ensures { result.now ≡ payload span file.now }
{
    bytes_between(span.content, span.end, file)
}

// What a span is, where items are or are not understood.
fn part_kind(judged: bool, role: Role) -> Kind
    ensures { result ≡ part_kind judged role }
{
    match role {
        Role::Known(kind) => kind,
        Role::Movie => Kind::Unknown,
        _ => { if judged { Kind::Picture } else { Kind::Unknown } }
    }
}

// Where the data of a span begin: with it, if it may hold both the picture and metadata.
fn data_from(span: Span) -> usize
    ensures { result ≡ data_from span }
{
    match span.role {
        Role::Known(_) | Role::Movie => span.content,
        _ => span.from,
    }
}

/// The part of the file that a span is.
pub fn part_of(judged: bool, span: Span) -> Part
    ensures { result ≡ part_of judged span }
{
    let from = data_from(span);
    Part {
        kind: part_kind(judged, span.role),
        picture: 0,
        offset: span.from,
        len: span.end.saturating_sub(span.from),
        data_offset: from,
        data_len: span.end.saturating_sub(from),
    }
}
