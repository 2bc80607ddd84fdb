//! A file written again, whatever container its first bytes tell.

ghost use Rattle.std.specs.Prelude.{◌≡◌, Err, false, take, OnOk, IfErr, IfSome};
ghost use Rattle.std.specs.Io.KnownBytes.{Keeps};
ghost use Rattle.exif_base.specs.Device.{CountsBoth};
ghost use Rattle.exif_types.specs.Refusals.{is_io, is_io_error};
ghost use Rattle.exif_types.specs.declared.error.Error.TheVariants.{OutOfMemory};
ghost use Rattle.exif_segments.specs.Answer.{IsNamed};
ghost use Rattle.exif_containers.specs.Container.{format_in};
ghost use Rattle.exif_segments.specs.Removing.{payload_of};
ghost use Rattle.exif_rewrite.specs.RewrittenFile.{IsRewritten, file_refusals, file_rewriting, rewriting_as};
ghost use Rattle.exif_rewrite.specs.SentFiles.{IsSent, StopsFile};

use crate::jpeg::rewrite_jpeg;
use crate::webp::rewrite_webp;
use exif_base::{Blocks, Sink, Source, read_front};
use exif_containers::container::{Format, SNIFF_LEN, format_of};
use exif_segments::Remove;
use exif_types::Error;
use std::alloc::Global;

// A file of this container, or the refusal of bytes that begin none.
fn rewrite_as<R: Source, W: Sink>(
    alloc: Global,
    format: Option<Format>,
    source: &mut R,
    out: &mut W,
    put: Option<&[u8]>,
    remove: Remove,
) -> Result<(), Error>
    ensures sent { OnOk result (IfSome (R.left source.old)
        (λ xs. IsSent (W.taken out.old) (W.taken out.new)
        (rewriting_as format remove (payload_of put.entry) xs))) }
    ensures stopped { IfErr result (λ e. IfSome (R.left source.old)
        (λ xs. StopsFile e (W.taken out.old) (W.taken out.new)
        (rewriting_as format remove (payload_of put.entry) xs))) }
    ensures named { IfErr result (IsNamed file_refusals) }
    ensures kept { IfErr result
        (λ e. is_io_error e ≡ false → Keeps (W.taken out.old) (W.taken out.new)) }
    ensures memory { result ≡ Err OutOfMemory → IsRewritten format }
    ensures count { CountsBoth (R.failures source.old) (R.failures source.new)
        (W.failures out.old) (W.failures out.new) (is_io result) }
    ensures read_through { R.through source.new ≡ R.through source.old }
    ensures written_through { W.through out.new ≡ W.through out.old }
{
    match format {
        Some(Format::Jpeg) => rewrite_jpeg(alloc, source, out, put, remove),
        Some(Format::WebP) => rewrite_webp(alloc, source, out, put, remove),
        Some(Format::Heif) => Err(Error::NotSupported("HEIF files are edited in place")),
        Some(Format::Tiff) => Err(Error::NotSupported("TIFF data are edited in place")),
        None => Err(Error::InvalidFormat("Unknown image format")),
    }
}

/// Writes a file again, whatever container it is: without its Exif data or without all metadata,
/// and with new Exif data if there are some.
///
/// The first 4096 bytes choose, as they do for reading, or all if there are fewer. Then a JPEG file
/// is written as [`rewrite_jpeg`] does, and a WebP file as [`rewrite_webp`] does: what is taken out,
/// where new data are and what stays is described there. Both hold the file in memory, and of a
/// JPEG file the new one too; all is settled before the first byte is sent. The sink is flushed
/// once, at the end.
///
/// Refusals: those of the two; NotSupported `HEIF files are edited in place` and `TIFF data are
/// edited in place`, since what they hold is found by its offset in the file, which has to stay
/// (`exif_edit` edits them so); and InvalidFormat `Unknown image format`. After a refusal and where
/// memory runs out, which comes of JPEG and WebP files alone, nothing was sent; after an error of
/// the sink a beginning of the new file was. How far the source was read is left open.
pub fn rewrite<R: Source, W: Sink>(
    alloc: Global,
    source: &mut R,
    out: &mut W,
    put: Option<&[u8]>,
    remove: Remove,
) -> Result<(), Error>
    ensures sent { OnOk result (IfSome (R.left source.old)
        (λ xs. IsSent (W.taken out.old) (W.taken out.new)
        (file_rewriting remove (payload_of put.entry) xs))) }
    ensures stopped { IfErr result (λ e. IfSome (R.left source.old)
        (λ xs. StopsFile e (W.taken out.old) (W.taken out.new)
        (file_rewriting remove (payload_of put.entry) xs))) }
    ensures named { IfErr result (IsNamed file_refusals) }
    ensures kept { IfErr result
        (λ e. is_io_error e ≡ false → Keeps (W.taken out.old) (W.taken out.new)) }
    ensures memory { result ≡ Err OutOfMemory → IfSome (R.left source.old)
        (λ xs. IsRewritten (format_in (take 4096 xs))) }
    ensures count { CountsBoth (R.failures source.old) (R.failures source.new)
        (W.failures out.old) (W.failures out.new) (is_io result) }
    ensures read_through { R.through source.new ≡ R.through source.old }
    ensures written_through { W.through out.new ≡ W.through out.old }
{
    let mut block = [0u8; SNIFF_LEN];
    let filled = read_front(source, &mut block)?;
    let format = format_of(&block[..filled]);
    let mut blocks = Blocks::new(&mut block, filled, source);
    rewrite_as(alloc, format, &mut blocks, out, put, remove)?;
    Ok(())
}
