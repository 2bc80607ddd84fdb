//! The first `meta` of a HEIF file whose source reads at an offset, box by box. What comes before it
//! is not read.

ghost use Rattle.std.specs.Prelude.{◌≡◌, ◌≤◌, ◌+◌, Some, length, take, is_err, IfOk, IfErr, IfSome, OnOk};
ghost use Rattle.std.specs.Io.KnownBytes.{Consumes, Keeps};
ghost use Rattle.exif_base.specs.Reads.{Counts};
ghost use Rattle.exif_base.specs.Told.{left_behind};
ghost use Rattle.exif_types.specs.Refusals.{IsInterrupted, is_io};
ghost use Rattle.exif_containers.specs.GoingBack.{FindsMeta, PassesBody, TakesBody};

use super::at::{read_at, read_front_at};
use exif_base::Source;
use exif_inventory::boxes::box_header;
use exif_isobmff::{Header, Kind, header_of, pass};
use exif_types::Error;
use std::alloc::Global;
use std::io;

// Reads the header of the box at an offset into the buffer, as far as it is there, and answers its
// length.
fn read_header<R: Source>(source: &mut R, at: u64, buf: &mut [u8; 16]) -> io::Result<Option<usize>>
    ensures bound { IfOk result (λ found. IfSome found (λ n. n ≤ length buf.new)) }
    ensures taken { IfOk result (λ found. IfSome found (λ n. Consumes
        (left_behind (Some at) (R.stream source.old))
        (left_behind (Some (at + n)) (R.stream source.old)) (take n buf.new))) }
    ensures kept { OnOk result (Keeps (R.left source.old) (R.left source.new)) }
    ensures stream { R.stream source.new ≡ R.stream source.old }
    ensures counts { Counts R.Source source.old source.new (is_err result) }
{
    let Some(n) = read_front_at(source, at, &mut buf[..8])? else {
        return Ok(None);
    };
    if n < 8 || box_header(&buf[..8]).is_some() {
        return Ok(Some(n));
    }
    let Some(next) = at.checked_add(8) else {
        return Ok(None);
    };
    let Some(more) = read_front_at(source, next, &mut buf[8..])? else {
        return Ok(None);
    };
    Ok(Some(n + more))
}

// Whether an `ftyp` was seen after a box before `meta`, whose body is at this offset; none where
// the box is refused.
fn pass_body<R: Source>(
    alloc: Global,
    source: &mut R,
    at: u64,
    header: Header,
    seen: bool,
) -> Result<Option<bool>, Error>
    ensures passed { IfOk result (λ found. IfSome found (λ now. PassesBody header seen now
        (left_behind (Some at) (R.stream source.old))
        (left_behind (Some (at + header.len)) (R.stream source.old)))) }
    ensures kept { OnOk result (Keeps (R.left source.old) (R.left source.new)) }
    ensures interrupted { IfErr result IsInterrupted }
    ensures stream { R.stream source.new ≡ R.stream source.old }
    ensures counts { Counts R.Source source.old source.new (is_io result) }
{
    if let Kind::FileType = header.kind {
        let Some(body) = read_at(alloc, source, at, header.len)? else {
            return Ok(None);
        };
        return Ok(pass(header.kind, header.len, &body, seen).ok());
    }
    Ok(pass(header.kind, header.len, &[], seen).ok())
}

// The body of `meta`, which is at this offset; none where it is cut.
fn meta_at<R: Source>(
    alloc: Global,
    source: &mut R,
    at: u64,
    len: u64,
) -> Result<Option<Vec<u8>>, Error>
    ensures taken { IfOk result (λ found. IfSome found (λ body. TakesBody len body.items
        (left_behind (Some at) (R.stream source.old))
        (left_behind (Some (at + len)) (R.stream source.old)))) }
    ensures whole { IfOk result (λ found. IfSome found (λ body. len ≤ length body.items)) }
    ensures kept { OnOk result (Keeps (R.left source.old) (R.left source.new)) }
    ensures interrupted { IfErr result IsInterrupted }
    ensures stream { R.stream source.new ≡ R.stream source.old }
    ensures counts { Counts R.Source source.old source.new (is_io result) }
{
    let Some(body) = read_at(alloc, source, at, len)? else {
        return Ok(None);
    };
    if (body.len() as u64) < len {
        return Ok(None);
    }
    Ok(Some(body))
}

/// The body of the first `meta` of a file that begins at this offset of the stream. None where what
/// comes up to its end refuses, where a box is cut or runs to the end of the file, and where the
/// source does not read at an offset.
pub fn find_meta<R: Source>(
    alloc: Global,
    source: &mut R,
    origin: u64,
) -> Result<Option<Vec<u8>>, Error>
    ensures found { IfOk result (λ found. IfSome found (λ meta. FindsMeta meta.items
        (left_behind (Some origin) (R.stream source.old)))) }
    ensures kept { OnOk result (Keeps (R.left source.old) (R.left source.new)) }
    ensures interrupted { IfErr result IsInterrupted }
    ensures stream { R.stream source.new ≡ R.stream source.old }
    ensures counts { Counts R.Source source.old source.new (is_io result) }
{
    let mut at = origin;
    let mut seen = false;
    loop {
        let mut buf = [0; 16];
        let Some(n) = read_header(source, at, &mut buf)? else {
            return Ok(None);
        };
        let Some(header) = header_of(&buf[..n]) else {
            return Ok(None);
        };
        let Some(body) = at.checked_add(n as u64) else {
            return Ok(None);
        };
        let Some(end) = body.checked_add(header.len) else {
            return Ok(None);
        };
        if let Kind::Meta = header.kind {
            if !seen {
                return Ok(None);
            }
            let found = meta_at(alloc, source, body, header.len)?;
            return Ok(found);
        }
        let Some(now) = pass_body(alloc, source, body, header, seen)? else {
            return Ok(None);
        };
        seen = now;
        at = end;
    }
}
