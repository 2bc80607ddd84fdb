//! The paths of new files that differ from each other.

ghost use Rattle.std.specs.Prelude.{◌≡◌, ℕ, List, IfOk, OnErr, string_bytes};
ghost use Rattle.std.specs.BTreeSet.{contains_text};
ghost use Rattle.std.specs.Option.{option_map};
ghost use Rattle.exif_rename.specs.Unused.{given_with, unused};

use crate::plan::TRIES;
use crate::request::{candidate, joined};
use std::alloc::{AllocError, Global};
use std::collections::BTreeSet;

/// The path of a new file: `base` with `ending`, or where that was given to another file, `base_1`,
/// `base_2` and so on with it, the first that was not given. It is given then. `None` where all
/// with a number up to 99,999 were given.
///
/// Which paths the file system has is not asked. It takes the memory of the path, twice; after an
/// error the same paths are given as before.
pub fn give_unused(
    alloc: Global,
    given: &mut BTreeSet<String>,
    base: &str,
    ending: &str,
) -> Result<Option<String>, AllocError>
    ensures path { IfOk result (λ path. option_map string_bytes path
        ≡ unused (contains_text given.old) base.now ending.now) }
    ensures given { IfOk result (λ path. (q : List ℕ) → contains_text given.new q
        ≡ given_with (contains_text given.old) base.now ending.now q) }
    ensures kept { OnErr result ((q : List ℕ) → contains_text given.new q
        ≡ contains_text given.old q) }
{
    let Some(path) = find_unused(alloc, given, base, ending)? else {
        return Ok(None);
    };
    given.insert(path.clone()?)?;
    Ok(Some(path))
}

// The first candidate of a base, with an ending, that was not given.
fn find_unused(
    alloc: Global,
    given: &BTreeSet<String>,
    base: &str,
    ending: &str,
) -> Result<Option<String>, AllocError>
    ensures { IfOk result (λ path. option_map string_bytes path
        ≡ unused (contains_text given.now) base.now ending.now) }
{
    for number in 0..TRIES {
        let name = candidate(alloc, base, number)?;
        let path = joined(alloc, name.as_str(), ending)?;
        if !is_given(given, path.as_str()) {
            return Ok(Some(path));
        }
    }
    Ok(None)
}

// Whether a path was given.
fn is_given(given: &BTreeSet<String>, path: &str) -> bool
    ensures { result ≡ contains_text given.now path.now }
{
    given.contains(path)
}
