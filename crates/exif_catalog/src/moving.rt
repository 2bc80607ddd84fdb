//! Files that were moved: new pictures whose bytes are those of a picture that is gone.

ghost use Rattle.std.specs.Prelude.{◌≡◌, ℕ, List, if◌then◌else◌, IfOk, OnOk, map, option_map};
ghost use Rattle.std.specs.BTreeMap.{get_by_text};
ghost use Rattle.std.specs.Str.{bytes_eq};
ghost use Rattle.std.specs.String.{string_bytes};
ghost use Rattle.exif_catalog.specs.Moves.{held, held_by, joined, move_by, moves_of, paths_of, with_hash};

use std::alloc::{AllocError, Global};
use std::collections::BTreeMap;

/// A picture, and the hash of its file's bytes.
#[derive(Drop)]
pub struct Hashed {
    /// The path of its row.
    pub path: String,
    /// The hash of its row.
    pub hash: String,
}

/// A file that was moved.
#[derive(Clone, Copy)]
pub struct Moved<'a> {
    /// The path of its row before.
    pub old: &'a str,
    /// Its path now.
    pub new: &'a str,
}

/// Which picture has a hash.
#[derive(Clone, Copy)]
pub enum Holder<'a> {
    /// The one with this path.
    One(&'a str),
    /// Several.
    Several,
}

// The pictures that have hashes, by these.
type Holders<'a> = BTreeMap<String, Holder<'a>>;

// Which picture has a hash, with one more that has it.
fn joined<'a>(holder: Option<Holder<'a>>, path: &'a str) -> Holder<'a>
    ensures { held (Some result) ≡ joined (held holder.entry) path.entry.now }
{
    match holder {
        None => Holder::One(path),
        Some(_) => Holder::Several,
    }
}

// Notes a picture by its hash.
fn note<'a>(
    alloc: Global,
    holders: &mut Holders<'a>,
    hash: &str,
    path: &'a str,
) -> Result<(), AllocError>
    ensures { OnOk result ((q : List ℕ) → held (get_by_text holders.new q)
        ≡ (if bytes_eq hash.now q then joined (held (get_by_text holders.old q)) path.entry.now
        else held (get_by_text holders.old q))) }
{
    let holder = joined(holders.get(hash).copied(), path);
    holders.insert(String::from_str(alloc, hash)?, holder)?;
    Ok(())
}

// The pictures by their hashes.
fn holders_of<'a>(alloc: Global, pictures: &'a [Hashed]) -> Result<Holders<'a>, AllocError>
    ensures { IfOk result (λ holders. (q : List ℕ)
        → held (get_by_text holders q) ≡ held_by (with_hash q pictures.entry.now)) }
{
    let mut holders = Holders::new(alloc);
    for picture in pictures {
        note(
            alloc,
            &mut holders,
            picture.hash.as_str(),
            picture.path.as_str(),
        )?;
    }
    Ok(holders)
}

// The move of a new picture, where one alone that is gone has its hash, and no other new one has.
fn move_of<'a>(gone: &Holders<'a>, new: &Holders<'a>, hash: &str) -> Option<Moved<'a>>
    ensures { option_map paths_of result ≡ move_by (held (get_by_text gone.now hash.now))
        (held (get_by_text new.now hash.now)) }
{
    match (gone.get(hash), new.get(hash)) {
        (Some(Holder::One(old)), Some(Holder::One(new))) => Some(Moved { old, new }),
        _ => None,
    }
}

/// Which files were moved: the pairs of a picture that is gone and a new one with the same hash,
/// where no other of either has that hash; in the order of the new ones. An error is out of memory.
pub fn moves_of<'a>(
    alloc: Global,
    gone: &'a [Hashed],
    new: &'a [Hashed],
) -> Result<Vec<Moved<'a>>, AllocError>
    ensures { IfOk result (λ moves. map paths_of moves.items
        ≡ moves_of gone.entry.now new.entry.now) }
{
    let holders = holders_of(alloc, gone)?;
    let news = holders_of(alloc, new)?;
    let mut moves = Vec::new(alloc);
    for picture in new {
        if let Some(moved) = move_of(&holders, &news, picture.hash.as_str()) {
            moves.push(moved)?;
        }
    }
    Ok(moves)
}
