//! A list of values, which contracts see by its members alone.

ghost use Rattle.std.specs.Prelude.{◌≡◌, ◌==◌, List, length, IfOk};

use std::alloc::{AllocError, Global};
use std::marker::Model;
use std::ops::Deref;
use std::{fmt, slice, vec};

/// A list of values. It is made from a `Vec` and gives it back without memory.
///
/// Where it is only looked at it is that `Vec`: `items[0]`, `items.first()`, `items.get(1..)`,
/// `items.iter()`, `for item in &items`.
///
/// ```
/// let value = Value::Short(Items::from_slice(alloc, &[orientation])?);
/// ```
#[derive(Drop)]
pub struct Items<T> {
    items: Vec<T>,
}

impl<T> Model for Items<T> {
    ghost Value = { List T };

    ghost view = { λ a. a.items.items };
}

impl<T> Items<T> {
    /// The list of what the vector holds.
    pub fn from_vec(items: Vec<T>) -> Items<T>
        ensures { result ≡ items.items }
    {
        Items { items }
    }

    /// A copy of a slice.
    pub fn from_slice(alloc: Global, items: &[T]) -> Result<Items<T>, AllocError>
    where
        T: Copy,
        ensures { IfOk result (λ copy. copy ≡ items.now) }
    {
        Ok(Items {
            items: Vec::from_slice(alloc, items)?,
        })
    }

    /// The vector that it is made of.
    pub fn into_vec(self) -> Vec<T>
        ensures { result.items ≡ self }
    {
        self.items
    }

    /// The members in order.
    pub fn as_slice(&self) -> &[T]
        ensures { result.now ≡ self.now }
    {
        self.items.as_slice()
    }

    /// How many members it has.
    pub fn len(&self) -> usize
        ensures { result ≡ length self.now }
    {
        self.items.len()
    }

    /// Whether it has no members.
    pub fn is_empty(&self) -> bool
        ensures { result ≡ (length self.now == 0) }
    {
        self.items.is_empty()
    }
}

impl<T> Deref for Items<T> {
    type Target = Vec<T>;

    ghost deref_gives = { λ a v. v.items ≡ a };

    fn deref(&self) -> &Vec<T> {
        &self.items
    }
}

impl<'a, T> IntoIterator for &'a Items<T> {
    type Item = &'a T;

    type IntoIter = slice::Iter<'a, T>;

    ghost use Rattle.std.specs.Prelude.{◌<◌, ◌^◌};
    ghost use Rattle.std.specs.Iterator.Runs.{EveryRun, ItemsMapTo};
    ghost use Rattle.std.specs.Slice.Iter.{iter_rest, iter_steps};

    ghost into_iter_gives = { λ a it. (iter_rest it ≡ a.now) × (length (iter_rest it) < 2 ^ 64)
        × EveryRun (iter_steps {A = T}) (λ p. ItemsMapTo p (λ x. x.now) (iter_rest p.from)) };

    fn into_iter(self) -> slice::Iter<'a, T> {
        self.as_slice().iter()
    }
}

impl<T: Drop> IntoIterator for Items<T> {
    type Item = T;

    type IntoIter = vec::IntoIter<T>;

    ghost use Rattle.std.specs.Iterator.Runs.{EveryRun, ItemsAre};
    ghost use Rattle.std.specs.Vec.Iter.{into_iter_items, into_iter_steps};
    ghost use Rattle.std.specs.declared.alloc.Global.{Global as Heap};

    ghost into_iter_gives = { λ a it. (into_iter_items it ≡ a)
        × EveryRun (into_iter_steps {X = T} {Z = Heap})
        (λ p. ItemsAre p (into_iter_items p.from)) };

    fn into_iter(self) -> vec::IntoIter<T> {
        self.items.into_iter()
    }
}

impl<T: PartialEq> PartialEq for Items<T> {
    ghost use Rattle.std.specs.Cmp.Lexicographic.{pointwise, lists_per};

    ghost eq = { λ x y. pointwise T.eq x y };

    ghost laws = { lists_per T.laws };

    fn eq(&self, other: &Self) -> bool {
        self.items == other.items
    }
}

impl<T: Eq> Eq for Items<T> {
    ghost use Rattle.std.specs.Cmp.Lexicographic.{lists_equiv};

    ghost laws = { lists_equiv T.Eq.laws };
}

impl<T: Copy> Items<T> {
    /// An equal list.
    pub fn clone(&self, alloc: Global) -> Result<Items<T>, AllocError>
        ensures { IfOk result (λ copy. copy ≡ self.now) }
    {
        Items::from_slice(alloc, self.as_slice())
    }
}

impl<T> From<Vec<T>> for Items<T> {
    ghost from_gives = { λ v a. a ≡ v.items };

    fn from(items: Vec<T>) -> Items<T> {
        Items { items }
    }
}

impl<T> From<Items<T>> for Vec<T> {
    ghost from_gives = { λ a v. v.items ≡ a };

    fn from(items: Items<T>) -> Vec<T> {
        items.items
    }
}

impl<T: fmt::Debug> fmt::Debug for Items<T> {
    fn fmt<W: fmt::Write>(&self, f: &mut fmt::Formatter<W>) -> fmt::Result {
        write!(f, "{:?}", self.items)
    }
}
