//! Laws of edits. They hold for all bytes, and speak of the definitions alone.

ghost use Rattle.std.specs.Prelude.{ℕ, List};
ghost use Rattle.exif_text.specs.declared.ifd.In.{In as Ifd};
ghost use Rattle.exif_types.specs.declared.tag.Tag.{Tag as Name};
ghost use Rattle.exif_types.specs.declared.value.Value.{Value as Content};
ghost use Rattle.exif_edit.specs.GpsAlone.{AreErasedUnshared};
ghost use Rattle.exif_edit.specs.Promises.{SetsBack};
ghost use Rattle.exif_edit.specs.Sharing.{IsSetUnshared};

/// If the value that was there is set again, the bytes are as they were before, if the space
/// of the value is the same: so it is where the new value was as long.
pub fn the_old_value_is_set_back()
    ensures { (bytes : List ℕ) (tag : Name) (k : Ifd) (value first : Content)
        → SetsBack tag k value first bytes }
{}

/// Where the entry of a field holds this field alone, and reading looks at no byte that a new value
/// changes as anything else, a value is set if it fits, and never refused as shared. Its numbers
/// fit their types, its texts hold no zero byte, and its tag's number names no child directory.
pub fn a_value_that_stands_alone_is_set()
    ensures { (tag : Name) (k : Ifd) (value : Content) (bytes : List ℕ)
        → IsSetUnshared tag k value bytes }
{}

/// Where reading looks at no byte of GPS directories and their values as anything else, they are
/// erased, and never refused as shared.
pub fn gps_that_stands_alone_is_erased()
    ensures { (bytes : List ℕ) → AreErasedUnshared bytes }
{}
