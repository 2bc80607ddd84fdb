//! A file that was written again.

ghost use Rattle.std.specs.Prelude.{◌≡◌, IfOk};
ghost use Rattle.exif_parts.specs.Written.{finished, written_of};

use std::alloc::AllocError;

/// How a file ended that was written again.
#[derive(Clone, Copy, Debug, PartialEq, Eq)]
pub enum Ended {
    /// With the end of its image, or of its last box.
    Whole,
    /// Before the end of its image, or within a box.
    Cut,
}

/// A file that was written again.
#[derive(Drop)]
pub struct Rewritten {
    /// Its bytes.
    pub bytes: Vec<u8>,
    /// How the file ended that it was made of.
    pub ended: Ended,
}

/// The file of these bytes, with a last few of them.
pub(crate) fn finish(mut bytes: Vec<u8>, last: &[u8], ended: Ended) -> Result<Rewritten, AllocError>
    ensures { IfOk result (λ file. written_of file ≡ finished bytes.items last.now ended) }
{
    bytes.extend_from_slice(last)?;
    Ok(Rewritten { bytes, ended })
}
