//! The first bytes of a file.

ghost use Rattle.std.specs.Prelude.{◌≡◌, take, IfOk, IfErr, IfSome};
ghost use Rattle.exif_base.specs.Reads.{Counts};
ghost use Rattle.exif_types.specs.Refusals.{IsInterrupted, is_io};

use exif_base::Source;
use exif_segments::util::read_at_most;
use exif_types::Error;
use std::alloc::Global;

/// The next bytes, so many or as many as there are. An error is one of the device, or out of memory.
pub fn read_prefix<R: Source>(alloc: Global, source: &mut R, most: u64) -> Result<Vec<u8>, Error>
    ensures reads { IfOk result
        (λ prefix. IfSome (R.left source.old) (λ bytes. prefix.items ≡ take most bytes)) }
    ensures interrupted { IfErr result IsInterrupted }
    ensures counts { Counts R.Source source.old source.new (is_io result) }
{
    let mut prefix = Vec::new(alloc);
    read_at_most(source, &mut prefix, most)?;
    Ok(prefix)
}
