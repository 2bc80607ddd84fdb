//! The folder of a file.

ghost use Rattle.std.specs.Prelude.{◌≡◌, ◌<◌, IfSome, length, slice_index};
ghost use Rattle.exif_files.specs.Folders.{folder_of, last_slash};

// Where the last `/` of a path is, if it has one.
fn last_slash(path: &[u8]) -> Option<usize>
    ensures value { result ≡ last_slash path.now }
    ensures within { IfSome result (λ at. at < length path.now) }
    ensures slash { IfSome result (λ at. slice_index path.now at ≡ 47) }
{
    let mut last = None;
    for (index, byte) in path.iter().enumerate() {
        if *byte == b'/' {
            last = Some(index);
        }
    }
    last
}

/// The folder of a file: what is before the last `/` of its path, the root where that is nothing,
/// and `.` where there is no `/`.
pub fn folder_of(path: &str) -> &str
    ensures { result.now ≡ folder_of path.now }
{
    match last_slash(path.as_bytes()) {
        Some(0) => "/",
        Some(at) => path.split_at(at).0,
        None => ".",
    }
}
