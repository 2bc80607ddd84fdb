//! Laws of growth. They hold for all bytes, and speak of the definitions alone.

ghost use Rattle.std.specs.Prelude.{ℕ, List, All, length};
ghost use Rattle.exif_edit_base.specs.Patches.{FitsIn};
ghost use Rattle.exif_grow.specs.Growing.{Added};
ghost use Rattle.exif_grow.specs.Promises.{KeepsOld};

/// The new data begin with the old ones, but for what the patches cover, and go on with the tail.
pub fn grown_data_begin_with_the_old_ones()
    ensures { (a : Added) (bytes : List ℕ) → All (FitsIn (length bytes)) a.patches
        → KeepsOld a bytes }
{}
