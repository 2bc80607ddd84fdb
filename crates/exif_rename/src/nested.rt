//! The folder that a new path is below.

ghost use Rattle.std.specs.Prelude.{◌≡◌, ◌≤◌, ◌<◌, ℕ, List, length, slice_index};
ghost use Rattle.exif_rename.specs.Nested.{IsNested, slash_after};

/// The folder that the new name of a file is below: that of the file, without the folders of the
/// name where it ends in them already. So a second run with `%Y/%m/%d` does not make folders within
/// those of the first one.
pub fn root_of<'a>(folder: &'a str, name: &str) -> &'a str
    ensures nested { (root : List ℕ) → IsNested folder.now name.now root → result.now ≡ root }
    ensures other { ((root : List ℕ) → IsNested folder.now name.now root → ⊥)
        → result.now ≡ folder.now }
{
    let folders = name.split_at(folders_end(name.as_bytes())).0;
    if folders.is_empty() {
        return folder;
    }
    let Some(above) = folder.strip_suffix(folders) else {
        return folder;
    };
    let Some(root) = above.strip_suffix("/") else {
        return folder;
    };
    root
}

// Where the last `/` of a name is, or 0.
fn folders_end(name: &[u8]) -> usize
    ensures end { result ≡ slash_after 0 0 name.now }
    ensures within { result ≤ length name.now }
    ensures slash { 0 < result → slice_index name.now result ≡ 47 }
    ensures inside { 0 < result → result < length name.now }
{
    let mut found = 0;
    for (index, byte) in name.iter().enumerate() {
        if *byte == b'/' {
            found = index;
        }
    }
    found
}
