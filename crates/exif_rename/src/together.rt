//! The order in which files get new names: those of one stem together.

ghost use Rattle.std.specs.Prelude.{◌≡◌, ◌++◌, IfOk, OnOk, false, map, true};
ghost use Rattle.std.specs.List.Sorted.{IsNonDecreasingBy, IsPermutation, IsStableByKey};
ghost use Rattle.std.specs.Ordering.{nat_cmp};
ghost use Rattle.exif_rename.specs.Grouped.{entry_of};
ghost use Rattle.exif_rename.specs.Together.{is_kind, places, places_of};

use crate::grouping::{Entry, group};
use std::alloc::{AllocError, Global};

/// The place of a file in the order of a plan.
#[derive(Clone, Copy, Debug)]
pub struct Place {
    /// The index of the first file of its stem.
    pub leader: usize,
    /// Its own index.
    pub index: usize,
}

/// The order in which files get new names: each file once, those of one stem together, their
/// sidecars before the others, and else in the order that they have. It takes the memory of
/// [`group`], and of two lists of places.
pub fn planned_order(alloc: Global, entries: &[Entry]) -> Result<Vec<Place>, AllocError>
    ensures each { IfOk result (λ order.
        IsPermutation (places (map entry_of entries.now)) order.items) }
    ensures together { IfOk result
        (λ order. IsNonDecreasingBy (λ place. place.leader) order.items) }
    ensures inside { IfOk result (λ order. IsStableByKey (λ place. place.leader) nat_cmp
        (places (map entry_of entries.now)) order.items) }
{
    let leaders = group(alloc, entries)?;
    let mut order = Vec::new(alloc);
    add_places(&mut order, entries, &leaders, true)?;
    add_places(&mut order, entries, &leaders, false)?;
    order.sort_by_key(|place| place.leader)?;
    Ok(order)
}

// Whether a file is a sidecar, or whether it is none.
fn is_kind(sidecars: bool, is_sidecar: bool) -> bool
    ensures { result ≡ is_kind sidecars is_sidecar }
{
    if sidecars { is_sidecar } else { !is_sidecar }
}

// Adds the places of the files that are sidecars, or of those that are none.
fn add_places(
    order: &mut Vec<Place>,
    entries: &[Entry],
    leaders: &[usize],
    sidecars: bool,
) -> Result<(), AllocError>
    ensures { OnOk result (order.new.items ≡ order.old.items
        ++ places_of sidecars 0 (map entry_of entries.now) leaders.now) }
{
    for index in 0..entries.len().min(leaders.len()) {
        if is_kind(sidecars, entries[index].is_sidecar) {
            let leader = leaders[index];
            order.push(Place { leader, index })?;
        }
    }
    Ok(())
}
