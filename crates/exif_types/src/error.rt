//! Errors, and what was read where there were any.

ghost use Rattle.std.specs.Prelude.{◌≡◌, All, map};
ghost use Rattle.exif_types.specs.Failures.{told_text, IsInvalidFormat};

use crate::Exif;
use std::alloc::{AllocError, AllocFailed};
use std::marker::Model;
use std::{fmt, io};

/// Why something could not be read or written. Written in a type, `Error` has texts that are
/// `&'static str`. Shown by `{}`, it is its text, for people.
///
/// All but `Io` and `OutOfMemory` say something of the bytes alone: read again, they answer the
/// same.
///
/// ```
/// let mut taken = match DateTime::from_ascii(date) {
///     Ok(taken) => taken,
///     Err(Error::BlankValue(_)) => return Ok(None),
///     Err(error) => return Err(error),
/// };
/// ```
#[derive(Debug, Drop)]
#[cycle(error)]
pub enum Error<Text = &'static str> {
    /// The bytes break the format: a fault of TIFF data or of the container.
    InvalidFormat(Text),
    /// The reader or the writer failed, with the system's error. An `Interrupted` is not tried
    /// again.
    Io(io::Error),
    /// A file of this format holds no Exif data.
    NotFound(Text),
    /// A date or an offset is blank, which means that it is not known (Exif 2.32, 4.6.4 D): treat
    /// it as absent.
    BlankValue(Text),
    /// A size is over the limit of a format: data over 4 GiB, an image that 32 bits don't address.
    TooBig(Text),
    /// The format allows it, and this library does not do it.
    NotSupported(Text),
    /// The value is of another kind than was requested, as text where `as_uint` wants numbers.
    UnexpectedValue(Text),
    /// Some of the data were read, in spite of faults. Only a reader answers it that continues on
    /// errors: `distill_partial_result` gives the fields and passes on the faults.
    PartialResult(PartialResult<Text>),
    /// Memory ran out. The call may be tried again.
    OutOfMemory,
}

/// What was read, with the faults that were found: the fields of all that is not broken.
#[derive(Drop)]
#[cycle(error)]
pub struct PartialResult<Text = &'static str> {
    exif: Exif,
    errors: Vec<Error<Text>>,
}

impl<Text> Model for PartialResult<Text> {
    ghost use Rattle.std.specs.Prelude.{map, All, length};
    ghost use Rattle.exif_types.specs.Contents.{PartialContents};

    ghost Value = { PartialContents Text };

    ghost use Rattle.exif_types.specs.Failures.{told_text, IsInvalidFormat};

    ghost view = { λ a. record { exif = a.exif; faults = map told_text a.errors.items } };

    ghost invariant = { λ a. All IsInvalidFormat a.errors.items };

    ghost size = { λ p. length p.faults };

    ghost use Rattle.exif_types.specs.ErrorFalls.{errors_fall};
    ghost use Rattle.std.proofs.Common.{arith};

    ghost size_decreases = { λ a h. Prim.omega (arith, errors_fall a.errors.items h) };
}

impl<Text> PartialResult<Text> {
    ghost use Rattle.std.specs.Prelude.{◌≡◌, length};

    fn field_count(&self) -> usize
        ensures { result ≡ length self.now.exif.fields }
    {
        self.exif.fields().len()
    }

    fn fault_count(&self) -> usize
        ensures { result ≡ length self.now.faults }
    {
        self.errors.len()
    }
}

/// What was read, with faults that are all of the variant `InvalidFormat`.
pub fn partial_from_parts<Text: Drop>(exif: Exif, errors: Vec<Error<Text>>) -> PartialResult<Text>
    requires { All IsInvalidFormat errors.items }
    ensures { result ≡ record { exif = exif; faults = map told_text errors.items } }
{
    PartialResult { exif, errors }
}

impl<Text: Drop> PartialResult<Text> {
    ghost use Rattle.std.specs.Prelude.{◌≡◌, All, map};
    ghost use Rattle.exif_types.specs.Failures.{told_text, IsInvalidFormat};

    /// What was read, and the faults that were found, in their order.
    pub fn into_inner(self) -> (Exif, Vec<Error<Text>>)
        ensures exif { result.0 ≡ self.exif }
        ensures faults { map told_text result.1.items ≡ self.faults }
        ensures invalid { All IsInvalidFormat result.1.items }
    {
        let PartialResult { exif, errors } = self;
        (exif, errors)
    }
}

impl From<AllocError> for Error {
    ghost use Rattle.std.specs.Prelude.{◌≡◌};
    ghost use Rattle.exif_types.specs.declared.error.Error.TheVariants.{OutOfMemory};

    ghost from_gives = { λ _ e. e ≡ OutOfMemory };

    fn from(_e: AllocError) -> Error {
        Error::OutOfMemory
    }
}

impl<T: Drop> From<AllocFailed<T>> for Error {
    ghost use Rattle.std.specs.Prelude.{◌≡◌};
    ghost use Rattle.exif_types.specs.declared.error.Error.TheVariants.{OutOfMemory};

    ghost from_gives = { λ _ e. e ≡ OutOfMemory };

    fn from(_e: AllocFailed<T>) -> Error {
        Error::OutOfMemory
    }
}

impl From<io::Error> for Error {
    ghost use Rattle.std.specs.Prelude.{◌≡◌};
    ghost use Rattle.exif_types.specs.declared.error.Error.TheVariants.{Io};

    ghost from_gives = { λ cause e. e ≡ Io cause };

    fn from(cause: io::Error) -> Error {
        Error::Io(cause)
    }
}

impl From<&'static str> for Error {
    ghost use Rattle.std.specs.Prelude.{◌≡◌, Some};
    ghost use Rattle.exif_types.specs.Refusals.{refusal_of, invalid_format};

    ghost from_gives = { λ text e. refusal_of e ≡ Some (invalid_format text.now) };

    fn from(text: &'static str) -> Error {
        Error::InvalidFormat(text)
    }
}

impl<Text: Drop> Error<Text> {
    ghost use Rattle.exif_types.specs.Distilling.{ForFaults, Distills};

    /// Passes the faults of a partial result to a closure, in the order in which they were found,
    /// and gives what was read. Any other error comes back as it was, and the closure is not
    /// called. It takes no memory.
    pub fn distill_partial_result<F: FnOnce(Vec<Error<Text>>) + Drop>(
        self,
        f: F,
    ) -> Result<Exif, Error<Text>>
        requires { ForFaults self (F.pre f) }
        ensures { Distills self result (λ errors. F.post f errors tt) }
    {
        match self {
            Error::PartialResult(partial) => {
                let (exif, errors) = partial.into_inner();
                f(errors);
                Ok(exif)
            }
            other => Err(other),
        }
    }
}

impl fmt::Display for Error {
    ghost use Rattle.exif_types.specs.Failures.{error_text};

    ghost output = { error_text };

    fn fmt<W: fmt::Write>(&self, f: &mut fmt::Formatter<W>) -> fmt::Result {
        match self {
            Error::InvalidFormat(text)
            | Error::BlankValue(text)
            | Error::TooBig(text)
            | Error::NotSupported(text)
            | Error::UnexpectedValue(text) => write!(f, "{text}"),
            Error::NotFound(what) => write!(f, "No Exif data found in {what}"),
            Error::Io(cause) => write!(f, "{cause}"),
            Error::PartialResult(partial) => write!(
                f,
                "Partial result with {} fields and {} errors",
                partial.field_count(),
                partial.fault_count()
            ),
            Error::OutOfMemory => write!(f, "Out of memory"),
        }
    }
}

impl<Text: fmt::Debug> fmt::Debug for PartialResult<Text> {
    #[cycle(debug)]
    fn fmt<W: fmt::Write>(&self, f: &mut fmt::Formatter<W>) -> fmt::Result {
        write!(
            f,
            "PartialResult(Exif({} fields), {:?})",
            self.exif.fields().len(),
            self.errors
        )
    }
}
