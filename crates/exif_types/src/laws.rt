//! What holds of equality, order and hashing of tags, of look-ups, and of unsigned numbers by
//! index.

ghost use Rattle.std.specs.Prelude.{◌≡◌, ◌↔◌, IsTrue, IfSome, IfNone, slice_get};
ghost use Rattle.std.specs.List.{fold};
ghost use Rattle.std.specs.Option.{option_and_then, option_copied};
ghost use Rattle.std.specs.declared.cmp.Ordering.TheVariants.{Equal};
ghost use Rattle.exif_types.specs.Lookup.{IsLastNamed, NoneNamed};
ghost use Rattle.exif_types.specs.TagOrder.{tag_order};

use crate::{Exif, Field, Fields, In, Tag, UIntIter, Value};
pub use exif_table::laws::contexts_agree;
pub use exif_text::laws::directories_agree;
use std::cmp::Ordering;
use std::hash::{Hash, Hasher};

/// Tags are equal where `==` says so and where their order says so, and equal ones hash alike.
/// Their contexts are compared first, and then their numbers.
pub fn tags_agree<H: Hasher>(a: Tag, b: Tag, first: &mut H, second: &mut H) -> (bool, Ordering)
    ensures equality { IsTrue result.0 ↔ (a ≡ b) }
    ensures order { (result.1 ≡ Equal) ↔ (a ≡ b) }
    ensures compared { result.1 ≡ ⟦<Tag as Ord>⟧.cmp a b }
    ensures ranked { result.1 ≡ tag_order a b }
    ensures first { first.new ≡ fold H.write first.old (⟦<Tag as Hash>⟧.hash_input a) }
    ensures second { second.new ≡ fold H.write second.old (⟦<Tag as Hash>⟧.hash_input b) }
    ensures hash { a ≡ b → first.old ≡ second.old → first.new ≡ second.new }
{
    a.hash(first);
    b.hash(second);
    (a == b, a.cmp(&b))
}

/// `get_field` gives the last of `fields()` with its tag and directory: none behind it has them,
/// and where it gives nothing none has them at all.
pub fn get_field_gives_the_last(exif: &Exif, tag: Tag, ifd_num: In) -> (Fields<'_>, Option<&Field>)
    ensures last { IfSome (option_copied result.1) (IsLastNamed tag ifd_num result.0) }
    ensures none { IfNone result.1 (NoneNamed tag ifd_num result.0) }
{
    (exif.fields(), exif.get_field(tag, ifd_num))
}

/// `get_uint` gives the item of `iter_uint` at its index, and nothing where there is none.
pub fn get_uint_gives_the_item(value: &Value, index: usize) -> (Option<UIntIter<'_>>, Option<u32>)
    ensures { result.1 ≡ option_and_then (λ items. slice_get items index) result.0 }
{
    (value.iter_uint(), value.get_uint(index))
}
