//! Names of files.

ghost use Rattle.std.specs.Prelude.{◌≡◌};
ghost use Rattle.exif_page.specs.Paths.{file_name};

// What is behind the last `/` of a path: the whole path where it has none.
pub(crate) fn file_name(path: &[u8]) -> &[u8]
    ensures { result.now ≡ file_name path.now }
{
    let mut start = 0;
    for at in 0..path.len() {
        if path[at] == b'/' {
            start = at + 1;
        }
    }
    &path[start..]
}
