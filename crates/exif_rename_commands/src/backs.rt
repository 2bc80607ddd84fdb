//! Which renames are taken back.

ghost use Rattle.std.specs.Prelude.{◌≡◌, ℕ, List, OnOk, string_bytes};
ghost use Rattle.std.specs.BTreeMap.{get_by_text};
ghost use Rattle.std.specs.Option.{unwrap_or};
ghost use Rattle.exif_rename_commands.specs.Backs.{back_of, taken_back};

use crate::words::NotBack;
use std::alloc::{AllocError, Global};
use std::collections::BTreeMap;

/// Whether a rename is taken back, or why not: by whether it was a copy, and whether something has
/// the new and the old name.
pub fn back_of(copied: bool, has_new: bool, has_old: bool) -> Result<(), NotBack>
    ensures { result ≡ back_of copied has_new has_old }
{
    if copied {
        Err(NotBack::Copy)
    } else if !has_new {
        Err(NotBack::Gone)
    } else if has_old {
        Err(NotBack::Taken)
    } else {
        Ok(())
    }
}

/// Which names would be there after the renames that a dry run took back.
#[derive(Drop)]
pub struct Names {
    /// Whether a file would be there, by its name; none where that is as on the disk.
    pub known: BTreeMap<String, bool>,
}

impl Names {
    /// All is as on the disk.
    pub fn new(alloc: Global) -> Names {
        Names {
            known: BTreeMap::new(alloc),
        }
    }

    /// A file has got its old name back.
    pub fn take_back(&mut self, old: &String, new: &String) -> Result<(), AllocError>
        ensures { OnOk result ((q : List ℕ) → get_by_text self.new.known q
            ≡ taken_back (string_bytes old.now) (string_bytes new.now)
            (get_by_text self.old.known) q) }
    {
        self.known.insert(old.clone()?, true)?;
        self.known.insert(new.clone()?, false)?;
        Ok(())
    }

    /// Whether a file would be there by a name, by whether the disk has one.
    pub fn has(&self, name: &str, on_disk: bool) -> bool
        ensures { result ≡ unwrap_or (get_by_text self.now.known name.now) on_disk }
    {
        match self.known.get(name) {
            Some(is_there) => *is_there,
            None => on_disk,
        }
    }
}
