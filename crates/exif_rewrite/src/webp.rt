//! A WebP file written again (WebP Container Specification, "Extended File Format", "Metadata"),
//! from a source to a sink.

ghost use Rattle.std.specs.Prelude.{◌≡◌, Ok, false, OnOk, IfOk, IfErr, IfSome};
ghost use Rattle.std.specs.Io.KnownBytes.{Keeps};
ghost use Rattle.exif_base.specs.Device.{CountsBoth};
ghost use Rattle.exif_base.specs.Reads.{Counts};
ghost use Rattle.exif_types.specs.Refusals.{Fails, is_io, is_io_error};
ghost use Rattle.exif_segments.specs.Answer.{IsNamed};
ghost use Rattle.exif_segments.specs.Removing.{payload_of};
ghost use Rattle.exif_parts.specs.Webp.{webp_rewritten};
ghost use Rattle.exif_rewrite.specs.RewrittenWebp.{webp_rewriting_refusals};
ghost use Rattle.exif_rewrite.specs.SentFiles.{IsSent, StopsFile};

use crate::sending::send_file;
use exif_base::{Sink, Source};
use exif_segments::Remove;
use exif_segments::util::read_all;
use exif_types::Error;
use std::alloc::Global;

// The file of a source, written again in memory.
fn read_webp<R: Source>(
    alloc: Global,
    source: &mut R,
    put: Option<&[u8]>,
    remove: Remove,
) -> Result<Vec<u8>, Error>
    ensures made { IfOk result (λ new. IfSome (R.left source.old)
        (λ xs. webp_rewritten remove (payload_of put.entry) xs ≡ Ok new.items)) }
    ensures refused { IfErr result (λ e. IfSome (R.left source.old)
        (λ xs. Fails e (webp_rewritten remove (payload_of put.entry) xs))) }
    ensures named { IfErr result (IsNamed webp_rewriting_refusals) }
    ensures counts { Counts R.Source source.old source.new (is_io result) }
{
    let file = read_all(alloc, source)?;
    exif_parts::rewrite_webp(alloc, &file, remove, put)
}

/// Writes a WebP file again: without its Exif data or without all metadata, and with new Exif data
/// if there are some.
///
/// What is taken out, where new data are and what stays is described in
/// [`exif_parts::rewrite_webp`]. The file is read whole into memory, the new one is made beside it,
/// and then all of it is sent. The sink is flushed once, at the end.
///
/// Refusals: those of the file, `Not a WebP file`, `Invalid header file size`, `Chunk overflowing
/// parent` and `Broken WebP file`; NotSupported `WebP file without an image header`; and TooBig
/// `Exif data too large` where four bytes no longer hold the size. After them and where memory runs
/// out nothing was sent, and after an error of the sink a beginning of the new file.
pub fn rewrite_webp<R: Source, W: Sink>(
    alloc: Global,
    source: &mut R,
    out: &mut W,
    put: Option<&[u8]>,
    remove: Remove,
) -> Result<(), Error>
    ensures sent { OnOk result (IfSome (R.left source.old)
        (λ xs. IsSent (W.taken out.old) (W.taken out.new)
        (webp_rewritten remove (payload_of put.entry) xs))) }
    ensures stopped { IfErr result (λ e. IfSome (R.left source.old)
        (λ xs. StopsFile e (W.taken out.old) (W.taken out.new)
        (webp_rewritten remove (payload_of put.entry) xs))) }
    ensures kept { IfErr result
        (λ e. is_io_error e ≡ false → Keeps (W.taken out.old) (W.taken out.new)) }
    ensures named { IfErr result (IsNamed webp_rewriting_refusals) }
    ensures count { CountsBoth (R.failures source.old) (R.failures source.new)
        (W.failures out.old) (W.failures out.new) (is_io result) }
    ensures read_through { R.through source.new ≡ R.through source.old }
    ensures written_through { W.through out.new ≡ W.through out.old }
{
    let new = read_webp(alloc, source, put, remove)?;
    send_file(out, &new)?;
    Ok(())
}
