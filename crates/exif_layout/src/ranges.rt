//! Numbers of a value fit their types. These functions do nothing: their contracts show it. The
//! types of slices tell it of unsigned numbers, and that of each member of all others.

ghost use Rattle.std.specs.Prelude.{◌<◌, ◌^◌, All};
ghost use Rattle.exif_layout.specs.Ranged.{IsRanged};

use exif_types::{Field, Rational, SRational, Value};

/// A kind of numbers that a slice's type does not show to fit.
trait Ranged: Copy {
    // The number fits.
    ghost fits: { Self → Type 0 };

    /// The number fits.
    fn show(self)
        ensures { fits self };
}

impl Ranged for i8 {
    ghost use Rattle.std.specs.Prelude.{FitsSigned};
    ghost use Rattle.std.specs.Int.{w8};

    ghost fits = { FitsSigned w8 };

    fn show(self) {}
}

impl Ranged for i16 {
    ghost use Rattle.std.specs.Prelude.{FitsSigned};
    ghost use Rattle.std.specs.Int.{w16};

    ghost fits = { FitsSigned w16 };

    fn show(self) {}
}

impl Ranged for i32 {
    ghost use Rattle.std.specs.Prelude.{FitsSigned};
    ghost use Rattle.std.specs.Int.{w32};

    ghost fits = { FitsSigned w32 };

    fn show(self) {}
}

impl Ranged for Rational {
    ghost use Rattle.std.specs.Prelude.{◌<◌, ◌^◌};

    ghost fits = { λ x. (x.num < 2 ^ 32) × (x.denom < 2 ^ 32) };

    fn show(self) {
        let _ = (self.num, self.denom);
    }
}

impl Ranged for SRational {
    ghost use Rattle.std.specs.Prelude.{FitsSigned};
    ghost use Rattle.std.specs.Int.{w32};

    ghost fits = { λ x. FitsSigned w32 x.num × FitsSigned w32 x.denom };

    fn show(self) {
        self.num.show();
        self.denom.show();
    }
}

// Each of the numbers fits.
#[tactic(auto, using(crate::proofs::RangesMembers::all_more, crate::proofs::RangesMembers::all_taken))]
fn show_all<T: Ranged>(items: &[T])
    ensures { All T.fits items.now }
{
    for item in items {
        item.show();
    }
}

// Each number of 16 bits fits.
fn show_u16s(items: &[u16])
    ensures { All (λ x. x < 2 ^ 16) items.now }
{
    let _count = items.len();
}

// Each number of 32 bits fits.
fn show_u32s(items: &[u32])
    ensures { All (λ x. x < 2 ^ 32) items.now }
{
    let _count = items.len();
}

// Each number of 64 bits fits.
fn show_u64s(items: &[u64])
    ensures { All (λ x. x < 2 ^ 64) items.now }
{
    let _count = items.len();
}

/// Each number of the value fits its type.
pub fn show_value_fits(value: &Value)
    ensures { IsRanged value.now }
{
    match value {
        Value::Short(items) => show_u16s(items.as_slice()),
        Value::Long(items) | Value::Float(items) => show_u32s(items.as_slice()),
        Value::Rational(items) => show_all(items.as_slice()),
        Value::SByte(items) => show_all(items.as_slice()),
        Value::SShort(items) => show_all(items.as_slice()),
        Value::SLong(items) => show_all(items.as_slice()),
        Value::SRational(items) => show_all(items.as_slice()),
        Value::Double(items) => show_u64s(items.as_slice()),
        Value::Byte(_) | Value::Ascii(_) | Value::Undefined(_, _) | Value::Unknown(_, _, _) => {}
    }
}

/// The tag's number and each number of the field's value fit their types.
pub fn show_field_fits(field: &Field)
    ensures tag { field.now.tag.1 < 2 ^ 16 }
    ensures value { IsRanged field.now.value }
{
    let _number = field.tag.1;
    show_value_fits(&field.value);
}
