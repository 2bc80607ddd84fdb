//! GPS data erased.

ghost use Rattle.std.specs.Prelude.{◌≡◌, ◌≤◌, ◌<◌, ◌^◌, not, length, IfOk, Ok, Some, [], ◌∷◌};
ghost use Rattle.exif_data_locations.specs.Erasing.{gps_erased, is_followed, noted_if};
ghost use Rattle.exif_data_locations.specs.Known.{IsLocated, MayBeLocated};
ghost use Rattle.exif_edit_base.specs.Readings.{read_of, reading};
ghost use Rattle.exif_edit_base.specs.Walked.{Finds};

use crate::reason::Reason;
use exif_edit::{Edit, Error, apply, erase_located_gps};
use exif_edit_base::Located;
use exif_edit_base::read::locate;
use exif_edit_base::unerased::leftovers_of;
use exif_tiff::stop::Stop;
use std::alloc::{AllocError, Global};

// Whether all GPS pointers of data that were located are followed.
fn is_followed(alloc: Global, bytes: &[u8], located: &Located) -> Result<bool, AllocError>
    requires { IsLocated bytes.now located.now }
    ensures { IfOk result (λ all. all ≡ is_followed bytes.now) }
{
    let left = leftovers_of(alloc, bytes, located)?;
    Ok(left.pointers.is_empty() && !left.meets_limit)
}

// One reason.
fn one(alloc: Global, why: Reason) -> Result<Vec<Reason>, AllocError>
    ensures { IfOk result (λ whys. whys.items ≡ why ∷ []) }
{
    let mut whys = Vec::new(alloc);
    whys.push(why)?;
    Ok(whys)
}

// The reason why GPS data of data that were located may be left.
fn left_of(alloc: Global, bytes: &[u8], located: &Located) -> Result<Vec<Reason>, AllocError>
    requires { IsLocated bytes.now located.now }
    ensures { IfOk result (λ whys.
        whys.items ≡ noted_if (not (is_followed bytes.now)) Reason.GpsNotFollowed []) }
{
    if is_followed(alloc, bytes, located)? {
        Ok(Vec::new(alloc))
    } else {
        one(alloc, Reason::GpsNotFollowed)
    }
}

// The same of data that are located first, and what was located.
#[tactic(auto, using(crate::proofs::Refused::none_followed))]
fn left_gps(alloc: Global, bytes: &[u8]) -> Result<(Vec<Reason>, Option<Located>), AllocError>
    ensures whys { IfOk result (λ r.
        r.0.items ≡ noted_if (not (is_followed bytes.now)) Reason.GpsNotFollowed []) }
    ensures located { IfOk result (λ r. MayBeLocated bytes.now r.1) }
{
    match locate(alloc, bytes) {
        Ok(located) => {
            let whys = left_of(alloc, bytes, &located)?;
            Ok((whys, Some(located)))
        }
        Err(Stop::Fault(_)) => Ok((one(alloc, Reason::GpsNotFollowed)?, None)),
        Err(Stop::OutOfMemory) => Err(AllocError),
    }
}

/// The reason that data are as they were.
pub fn unchanged(alloc: Global) -> Result<Vec<Reason>, AllocError>
    ensures { IfOk result (λ whys. whys.items ≡ Reason.NotChanged ∷ []) }
{
    one(alloc, Reason::NotChanged)
}

/// Erases GPS data of data that were located, and answers why some may be left; and what is located
/// of the new data, if that is known.
pub fn erase_gps(
    alloc: Global,
    bytes: &mut [u8],
    located: Located,
) -> Result<(Vec<Reason>, Option<Located>), AllocError>
    requires { IsLocated bytes.old located }
    ensures whys { IfOk result (λ r. (bytes.new, r.0.items) ≡ gps_erased bytes.old) }
    ensures located { IfOk result (λ r. MayBeLocated bytes.new r.1) }
{
    match erase_located_gps(alloc, bytes, located) {
        Ok(Some(located)) => {
            let whys = left_of(alloc, bytes, &located)?;
            Ok((whys, Some(located)))
        }
        Ok(None) => left_gps(alloc, bytes),
        Err(Error::OutOfMemory) => Err(AllocError),
        Err(Error::SharedBytes) => Ok((one(alloc, Reason::GpsShared)?, None)),
        Err(_) => Ok((unchanged(alloc)?, None)),
    }
}
