//! Laws of plans and names. They hold for all requests, states and texts, and speak of the
//! definitions alone.

ghost use Rattle.std.specs.Prelude.{◌≡◌, ◌≢◌, ◌<◌, ℕ, List, [], Bool, false, Ok, Some, length, slice_index};
ghost use Rattle.exif_rename.specs.Apart.{AreToFree, DifferAfter, all_moves, paths_by};
ghost use Rattle.exif_rename.specs.Naming.{safe};
ghost use Rattle.exif_rename.specs.Planned.{planned};
ghost use Rattle.exif_rename.specs.Unused.{unused};
ghost use Rattle.exif_rename.specs.RenameRequests.{Wanted};

/// No two files get one path.
pub fn new_paths_differ()
    ensures { (free : List ℕ → Bool) (requests : List Wanted) (numbers : List ℕ)
        → planned free requests ≡ Ok numbers → DifferAfter [] (paths_by requests numbers) }
{}

/// Nothing has the path that a file is moved to: so no move overwrites a file.
pub fn moves_are_to_free_paths()
    ensures { (free : List ℕ → Bool) (requests : List Wanted) (numbers : List ℕ)
        → planned free requests ≡ Ok numbers → AreToFree free (all_moves requests numbers) }
{}

/// Each request gets a number.
pub fn each_request_has_a_number()
    ensures { (free : List ℕ → Bool) (requests : List Wanted) (numbers : List ℕ)
        → planned free requests ≡ Ok numbers → length numbers ≡ length requests }
{}

/// The path of a new file was given to no other.
pub fn an_unused_path_was_not_given()
    ensures { (is_given : List ℕ → Bool) (base ending path : List ℕ)
        → unused is_given base ending ≡ Some path → is_given path ≡ false }
{}

/// No text that a pattern brings in has a `/`: so only the pattern makes folders.
pub fn safe_texts_have_no_slash()
    ensures { (text : List ℕ) (i : ℕ)
        → i < length (safe text) → slice_index (safe text) i ≢ 47 }
{}
