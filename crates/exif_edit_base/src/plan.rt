//! What an edit means to do: its patches, and how the data must be read with them.

ghost use Rattle.std.specs.Prelude.{◌≡◌, All, length, IfOk};
ghost use Rattle.exif_edit_base.specs.Causes.{Edits, Makes};
ghost use Rattle.exif_edit_base.specs.Patches.{FitsIn};
ghost use Rattle.exif_edit_base.specs.Plans.{carried_out, is_read, planned};

use crate::Error;
use crate::patch::{Patch, exchange, patched, put_back};
use crate::read::reads_as;
use crate::reread::{clears, still_reads};
use exif_tiff::tiff::Parsed;
use std::alloc::{AllocError, Global};

/// How edited data must be read.
#[derive(Drop)]
pub enum Wanted {
    /// They need not be read again.
    Anything,
    /// As this.
    Same(Parsed),
    /// As this, with no more faults.
    Cleared(Parsed),
    /// As this, wherever the entries are, with no more faults.
    Left(Parsed),
}

/// What an edit puts over data, if they are read as it is wanted then.
#[derive(Drop)]
pub struct Plan {
    pub patches: Vec<Patch>,
    pub wanted: Wanted,
}

// Whether data are read as it is wanted.
fn is_read(alloc: Global, bytes: &[u8], wanted: Wanted) -> Result<bool, AllocError>
    ensures { IfOk result (λ same. same ≡ is_read bytes.now wanted) }
{
    match wanted {
        Wanted::Anything => Ok(true),
        Wanted::Same(parsed) => reads_as(alloc, bytes, &parsed),
        Wanted::Cleared(parsed) => clears(alloc, bytes, &parsed),
        Wanted::Left(parsed) => still_reads(alloc, bytes, parsed),
    }
}

/// The patches of a plan, after a reading of what they make of a copy, where one is wanted.
pub fn try_on_copy(alloc: Global, bytes: &[u8], plan: Plan) -> Result<Vec<Patch>, Error>
    requires { All (FitsIn (length bytes.now)) plan.patches.items }
    ensures answer { Makes (λ ps. ps.items) result (planned bytes.now plan) }
    ensures within { IfOk result (λ ps. All (FitsIn (length bytes.now)) ps.items) }
{
    let Plan { patches, wanted } = plan;
    match wanted {
        Wanted::Anything => Ok(patches),
        wanted => {
            let new = patched(alloc, patches.as_slice(), bytes)?;
            let same = is_read(alloc, new.as_slice(), wanted)?;
            if same {
                Ok(patches)
            } else {
                Err(Error::SharedBytes)
            }
        }
    }
}

/// Carries a plan out over the data, reads them, and puts back what was there if
/// they are not read as it is wanted. It takes the memory of that reading.
pub fn carry_out(alloc: Global, bytes: &mut [u8], plan: Plan) -> Result<(), Error>
    requires { All (FitsIn (length bytes.old)) plan.patches.items }
    ensures { Edits result bytes.old bytes.new (carried_out bytes.old plan) }
{
    let Plan {
        mut patches,
        wanted,
    } = plan;
    let patches = patches.as_mut_slice();
    exchange(alloc, bytes, patches);
    let refusal = match is_read(alloc, bytes, wanted) {
        Ok(true) => return Ok(()),
        Ok(false) => Error::SharedBytes,
        Err(AllocError) => Error::OutOfMemory,
    };
    put_back(alloc, bytes, patches);
    Err(refusal)
}
