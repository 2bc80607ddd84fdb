//! Files that have their new names already, or whose bytes have them.

ghost use Rattle.std.specs.Prelude.{◌≡◌};
ghost use Rattle.std.specs.List.{list_all, list_any};
ghost use Rattle.exif_rename.specs.Present.{all_there, begun, is_itself, is_main, is_not_other, is_there};

/// What has the new path of a file of one stem.
#[derive(Clone, Copy, Debug)]
pub struct Presence {
    /// Whether the file is a sidecar.
    pub is_sidecar: bool,
    /// Whether a file of the same bytes has the path.
    pub is_same: bool,
}

/// Whether the files of one stem are there already, by what has their new paths: each but a sidecar
/// has its bytes there, and there is such a file. A sidecar, which programs change, may differ.
pub fn are_there(files: &[Presence]) -> bool
    ensures there { result ≡ all_there files.now }
{
    has_main(files) && none_lacks(files)
}

// Whether one of the files is no sidecar.
fn has_main(files: &[Presence]) -> bool
    ensures { result ≡ list_any is_main files.now }
{
    files.iter().any(|file| !file.is_sidecar)
}

// Whether each file is there already, or need not be.
fn none_lacks(files: &[Presence]) -> bool
    ensures { result ≡ list_all is_there files.now }
{
    files.iter().all(|file| file.is_sidecar || file.is_same)
}

/// What has the new path of a file that is to be moved.
#[derive(Clone, Copy, Debug, PartialEq, Eq)]
pub enum Held {
    /// Nothing.
    Nothing,
    /// The file itself, which has its old path, too.
    Itself,
    /// Another file.
    Other,
}

/// Whether the move of the files of one stem was begun and cut off, by what has their new paths: one
/// of them has its new path besides its old one, and no other file has one of these paths.
pub fn is_begun(files: &[Held]) -> bool
    ensures begun { result ≡ begun files.now }
{
    has_itself(files) && none_is_taken(files)
}

// Whether one of the files has its new path.
fn has_itself(files: &[Held]) -> bool
    ensures { result ≡ list_any is_itself files.now }
{
    files.iter().any(|file| *file == Held::Itself)
}

// Whether no other file has one of the new paths.
fn none_is_taken(files: &[Held]) -> bool
    ensures { result ≡ list_all is_not_other files.now }
{
    files.iter().all(|file| *file != Held::Other)
}
