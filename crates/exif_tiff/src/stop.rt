//! Why a parser stops.

ghost use Rattle.std.specs.Prelude.{◌≡◌};
ghost use Rattle.exif_tiff.specs.declared.stop.Stop.TheVariants.{OutOfMemory};

use crate::Fault;
use exif_types::Error;
use std::alloc::{AllocError, AllocFailed};

/// Why a parser stops: there is no memory, or a fault ends the reading.
#[derive(Clone, Copy, Debug)]
pub enum Stop {
    OutOfMemory,
    Fault(Fault),
}

impl From<AllocError> for Stop {
    ghost from_gives = { λ _ e. e ≡ OutOfMemory };

    fn from(_e: AllocError) -> Stop {
        Stop::OutOfMemory
    }
}

impl<T: Drop> From<AllocFailed<T>> for Stop {
    ghost from_gives = { λ _ e. e ≡ OutOfMemory };

    fn from(_e: AllocFailed<T>) -> Stop {
        Stop::OutOfMemory
    }
}

impl From<Stop> for Error {
    ghost use Rattle.exif_tiff.specs.StopErrors.{Becomes};

    ghost from_gives = { Becomes };

    fn from(stop: Stop) -> Error {
        match stop {
            Stop::OutOfMemory => Error::OutOfMemory,
            Stop::Fault(fault) => Error::from(fault),
        }
    }
}
