//! What holds of the texts, of equality of fractions, and of equality, order and hashing of
//! directories.

ghost use Rattle.std.specs.Prelude.{◌≡◌, ◌↔◌, IsTrue};
ghost use Rattle.std.specs.List.{fold};
ghost use Rattle.std.specs.Ordering.{nat_cmp};
ghost use Rattle.std.specs.declared.cmp.Ordering.TheVariants.{Equal};
ghost use Rattle.exif_text.specs.Quoted.{quoted};

use crate::ifd::In;
use crate::rational::{Rational, SRational};
use std::cmp::Ordering;
use std::hash::{Hash, Hasher};

/// Different bytes have different quoted texts.
pub fn quoted_tells_bytes(_a: &[u8], _b: &[u8])
    ensures { quoted _a.now ≡ quoted _b.now → _a.now ≡ _b.now }
{}

/// `==` on fractions without sign is equality of both numbers: 1/2 is not 2/4.
pub fn is_same_rational(a: Rational, b: Rational) -> bool
    ensures { IsTrue result ↔ (a ≡ b) }
{
    a == b
}

/// `==` on fractions with sign is equality of both numbers: 1/2 is not -1/-2.
pub fn is_same_srational(one: SRational, other: SRational) -> bool
    ensures { IsTrue result ↔ (one ≡ other) }
{
    one == other
}

/// Directories are equal where `==` says so and where their order says so, and equal ones hash
/// alike. Their order is that of their numbers.
pub fn directories_agree<H: Hasher>(a: In, b: In, first: &mut H, second: &mut H) -> (bool, Ordering)
    ensures equality { IsTrue result.0 ↔ (a ≡ b) }
    ensures order { (result.1 ≡ Equal) ↔ (a ≡ b) }
    ensures compared { result.1 ≡ ⟦<In as Ord>⟧.cmp a b }
    ensures ranked { result.1 ≡ nat_cmp a.0 b.0 }
    ensures first { first.new ≡ fold H.write first.old (⟦<In as Hash>⟧.hash_input a) }
    ensures second { second.new ≡ fold H.write second.old (⟦<In as Hash>⟧.hash_input b) }
    ensures hash { a ≡ b → first.old ≡ second.old → first.new ≡ second.new }
{
    a.hash(first);
    b.hash(second);
    (a == b, a.cmp(&b))
}
