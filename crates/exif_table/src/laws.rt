//! What holds of equality, order and hashing of contexts.

ghost use Rattle.std.specs.Prelude.{◌≡◌, ◌↔◌, IsTrue};
ghost use Rattle.std.specs.List.{fold};
ghost use Rattle.std.specs.declared.cmp.Ordering.TheVariants.{Equal};
ghost use Rattle.exif_table.specs.Contexts.{context_order};

use crate::Context;
use std::cmp::Ordering;
use std::hash::{Hash, Hasher};

/// Contexts are equal where `==` says so and where their order says so, and equal ones hash alike.
/// Their order is Tiff, Exif, Gps, Interop.
pub fn contexts_agree<H: Hasher>(
    a: Context,
    b: Context,
    first: &mut H,
    second: &mut H,
) -> (bool, Ordering)
    ensures equality { IsTrue result.0 ↔ (a ≡ b) }
    ensures order { (result.1 ≡ Equal) ↔ (a ≡ b) }
    ensures compared { result.1 ≡ ⟦<Context as Ord>⟧.cmp a b }
    ensures ranked { result.1 ≡ context_order a b }
    ensures first { first.new ≡ fold H.write first.old (⟦<Context as Hash>⟧.hash_input a) }
    ensures second { second.new ≡ fold H.write second.old (⟦<Context as Hash>⟧.hash_input b) }
    ensures hash { a ≡ b → first.old ≡ second.old → first.new ≡ second.new }
{
    a.hash(first);
    b.hash(second);
    (a == b, a.cmp(&b))
}
