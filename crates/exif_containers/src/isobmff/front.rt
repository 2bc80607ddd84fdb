//! The front of a HEIF file, up to the end of its `meta`, box by box.

ghost use Rattle.std.specs.Prelude.{◌≡◌, ◌≤◌, ◌<◌, ◌+◌, length, OnOk, IfOk, IfErr, IfSome, true, false};
ghost use Rattle.std.specs.Io.KnownBytes.{IsAtEnd};
ghost use Rattle.exif_base.specs.Reads.{Counts};
ghost use Rattle.exif_types.specs.Refusals.{IsInterrupted, is_io};
ghost use Rattle.exif_containers.specs.HeifSteps.{GoesOn};
ghost use Rattle.exif_containers.specs.declared.isobmff.front.Next.TheVariants.{Box};

use exif_base::Source;
use exif_isobmff::{BoxSplitter, Kind};
use exif_segments::util::read_at_most;
use exif_types::Error;

/// Reads so many bytes, or as far as they go, and answers whether all came.
#[tactic(auto, using(crate::proofs::IsobmffFront::goes_on))]
pub fn read_whole<R: Source>(source: &mut R, bytes: &mut Vec<u8>, len: u64) -> Result<bool, Error>
    ensures read { OnOk result
        (GoesOn (R.left source.old) (R.left source.new) bytes.old.items bytes.new.items) }
    ensures grows { IfOk result (λ whole. whole ≡ true
        → length bytes.old.items + len ≤ length bytes.new.items) }
    ensures kept { OnOk result (length bytes.old.items ≤ length bytes.new.items) }
    ensures end { IfOk result (λ whole. whole ≡ false → IsAtEnd (R.left source.new)) }
    ensures interrupted { IfErr result IsInterrupted }
    ensures stream { R.stream source.new ≡ R.stream source.old }
    ensures counts { Counts R.Source source.old source.new (is_io result) }
{
    let n = read_at_most(source, bytes, len)?;
    Ok(n == len)
}

// The type of the next box and the length of its body, where both are given.
fn header<R: Source>(source: &mut R, bytes: &mut Vec<u8>) -> Result<Option<(Kind, u64)>, Error>
    ensures read { OnOk result
        (GoesOn (R.left source.old) (R.left source.new) bytes.old.items bytes.new.items) }
    ensures grows { IfOk result
        (λ h. IfSome h (λ _. length bytes.old.items < length bytes.new.items)) }
    ensures interrupted { IfErr result IsInterrupted }
    ensures stream { R.stream source.new ≡ R.stream source.old }
    ensures counts { Counts R.Source source.old source.new (is_io result) }
{
    let start = bytes.len();
    if !read_whole(source, bytes, 8)? {
        return Ok(None);
    }
    let whole = BoxSplitter::new(&bytes[start..]).has_header();
    if !whole && !read_whole(source, bytes, 8)? {
        return Ok(None);
    }
    Ok(said_header(&bytes[start..]))
}

// The type of a box and the length of its body, of a header that says its size.
fn said_header(bytes: &[u8]) -> Option<(Kind, u64)> {
    let mut head = BoxSplitter::new(bytes);
    if !head.has_header() || bytes[..4] == [0; 4] {
        return None;
    }
    let header = head.header().ok()?;
    Some((header.kind, header.len))
}

/// What follows the boxes that were read.
#[derive(Clone, Copy)]
pub enum Next {
    /// Another box, before the end of `meta`.
    Box,
    /// The body of a box that is not read, of this length.
    Body(u64),
    /// Nothing that is known: `meta` or the boxes ended.
    Unknown,
}

// Reads the next box, and answers what follows it. A box before `meta` of which more than `most`
// bytes were to be kept is read up to its body.
fn next_box<R: Source>(source: &mut R, bytes: &mut Vec<u8>, most: u64) -> Result<Next, Error>
    ensures read { OnOk result
        (GoesOn (R.left source.old) (R.left source.new) bytes.old.items bytes.new.items) }
    ensures grows { IfOk result
        (λ next. next ≡ Box → length bytes.old.items < length bytes.new.items) }
    ensures interrupted { IfErr result IsInterrupted }
    ensures stream { R.stream source.new ≡ R.stream source.old }
    ensures counts { Counts R.Source source.old source.new (is_io result) }
{
    let Some((kind, len)) = header(source, bytes)? else {
        return Ok(Next::Unknown);
    };
    if kind != Kind::Meta && len > most.saturating_sub(bytes.len() as u64) {
        return Ok(Next::Body(len));
    }
    let whole = read_whole(source, bytes, len)?;
    if whole && kind != Kind::Meta {
        return Ok(Next::Box);
    }
    Ok(Next::Unknown)
}

/// Reads the boxes of a file up to the end of the first `meta`, or as far as boxes go that say
/// their size, and answers none; or up to the body of a box before `meta` with which more than
/// `most` bytes were to be kept, and answers its length.
pub fn read_boxes<R: Source>(
    source: &mut R,
    bytes: &mut Vec<u8>,
    most: u64,
) -> Result<Option<u64>, Error>
    ensures read { OnOk result
        (GoesOn (R.left source.old) (R.left source.new) bytes.old.items bytes.new.items) }
    ensures interrupted { IfErr result IsInterrupted }
    ensures stream { R.stream source.new ≡ R.stream source.old }
    ensures counts { Counts R.Source source.old source.new (is_io result) }
{
    loop {
        match next_box(source, bytes, most)? {
            Next::Box => {}
            Next::Body(len) => return Ok(Some(len)),
            Next::Unknown => return Ok(None),
        }
    }
}
