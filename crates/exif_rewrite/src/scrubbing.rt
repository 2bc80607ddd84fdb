//! What was read, written again without the location where a picture was taken.

ghost use Rattle.std.specs.Prelude.{◌≡◌, ◌⊎◌, None, Some, false, OnOk, OnErr, IfErr, IfSome, IsErrAnd};
ghost use Rattle.std.specs.Io.KnownBytes.{Appends, Keeps};
ghost use Rattle.exif_base.specs.Device.{count_after};
ghost use Rattle.exif_base.specs.Sent.{SendsFront};
ghost use Rattle.exif_types.specs.Refusals.{IsInterrupted, is_io, is_io_error, refusal_of};
ghost use Rattle.exif_layout.specs.Image.{image};
ghost use Rattle.exif_layout.specs.Refused.{write_fault};
ghost use Rattle.exif_layout.specs.Rewriting.{pushed_all};
ghost use Rattle.exif_layout.specs.Scrubbing.{is_kept, kept, scrubbed, IsScrubbed, LeavesKept};
ghost use Rattle.exif_layout.specs.WriteFaults.{write_refusal};
ghost use Rattle.exif_base.specs.Orders.{order_named};

use exif_base::Sink;
use exif_layout::laws::scrubbing_twice_is_once;
use exif_types::{Context, Error, Exif, Field, Value};
use exif_writer::Writer;
use std::alloc::Global;

// Whether a field is written again: its type is known, and it says nothing of the location.
fn is_kept(field: &Field) -> bool
    ensures { result ≡ is_kept field.now }
{
    !matches!(field.tag.context(), Context::Gps) && !matches!(field.value, Value::Unknown(_, _, _))
}

// Pushes the fields that are kept, in their order. The only error is out of memory.
fn push_kept<'a>(writer: &mut Writer<'a>, exif: &'a Exif) -> Result<(), Error>
    ensures pushed { OnOk result (writer.new ≡ pushed_all (kept exif.now.fields) writer.old) }
    ensures memory { IfErr result (λ e. e ≡ Error.OutOfMemory) }
{
    for field in exif.fields() {
        if is_kept(field) {
            writer.push_field(field)?;
        }
    }
    Ok(())
}

/// Writes what was read again as TIFF data, but for the fields that say where a picture was taken
/// (those of the context `Gps`) and those of unknown types. Thumbnails, strips and tiles are not
/// written. What was sent is read, in both modes and without a fault, as exactly the fields that
/// are kept, and scrubbing it again gives the same bytes.
///
/// The refusals are those of `Writer::write` for these fields: after them and where memory runs out
/// nothing was sent, and after an error of the sink exactly a beginning of the image.
pub fn scrub<W: Sink>(
    alloc: Global,
    exif: &Exif,
    out: &mut W,
    little_endian: bool,
) -> Result<(), Error>
    ensures sent { OnOk result (Appends (W.taken out.old) (W.taken out.new)
        (image (order_named little_endian) (scrubbed exif.now.fields))) }
    ensures scrubbed { OnOk result (IsScrubbed (order_named little_endian) exif.now.fields) }
    ensures leaves { LeavesKept exif.now.fields }
    ensures accepted { OnOk result (write_fault (scrubbed exif.now.fields) ≡ None) }
    ensures refused { IfSome (write_fault (scrubbed exif.now.fields))
        (λ cause. IsErrAnd result
        (λ e. (refusal_of e ≡ Some (write_refusal cause)) ⊎ (e ≡ Error.OutOfMemory))) }
    ensures interrupted { IfErr result
        (λ e. write_fault (scrubbed exif.now.fields) ≡ None → IsInterrupted e) }
    ensures kept { IfErr result
        (λ e. is_io_error e ≡ false → Keeps (W.taken out.old) (W.taken out.new)) }
    ensures front { OnErr result (SendsFront (W.taken out.old) (W.taken out.new)
        (image (order_named little_endian) (scrubbed exif.now.fields))) }
    ensures count { W.failures out.new ≡ count_after (is_io result) (W.failures out.old) }
    ensures through { W.through out.new ≡ W.through out.old }
{
    // The fields were read, which the law wants to know.
    let _ = exif.fields();
    scrubbing_twice_is_once();
    let mut writer = Writer::new(alloc);
    push_kept(&mut writer, exif)?;
    writer.write(out, little_endian)
}
