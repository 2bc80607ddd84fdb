//! Paths and the names in them.

ghost use Rattle.std.specs.Prelude.{◌≡◌, ◌-◌, ◌<◌, ◌≤◌, drop, length, slice_index};
ghost use Rattle.exif_decisions.specs.Paths.{is_inside, name_of, slash_after};

// Where the last part of a path begins.
fn name_start(path: &[u8]) -> usize
    ensures start { drop result path.now ≡ name_of path.now }
    ensures within { result ≤ length path.now }
    ensures slash { 0 < result → slice_index path.now (result - 1) ≡ 47 }
{
    let mut start = 0;
    for (index, byte) in path.iter().enumerate() {
        if *byte == b'/' {
            start = index + 1;
        }
    }
    start
}

/// The last part of a path: what follows its last `/`, or all of it where there is none.
pub fn name_of(path: &str) -> &str
    ensures { result.now ≡ name_of path.now }
{
    path.split_at(name_start(path.as_bytes())).1
}

/// What is between a folder and a name in it: a `/`, unless the folder ends in one.
pub fn slash_after(folder: &str) -> &'static str
    ensures { result.now ≡ slash_after folder.now }
{
    if folder.as_bytes().ends_with(b"/") {
        ""
    } else {
        "/"
    }
}

/// Whether a name in the listing of a folder is of something in it: not of the folder itself, nor
/// of the one above.
pub fn is_inside(name: &[u8]) -> bool
    ensures { result ≡ is_inside name.now }
{
    !name.is_empty() && name != b".".as_slice() && name != b"..".as_slice()
}
