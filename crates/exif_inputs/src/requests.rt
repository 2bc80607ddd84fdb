//! The new name that the files of a stem are to have.

ghost use Rattle.std.specs.Prelude.{◌≡◌, ◌≢◌, ◌++◌, ℕ, List, [], ◌∷◌, IfOk, OnOk, length, map, string_bytes};
ghost use Rattle.exif_files.specs.Names.{name_if};
ghost use Rattle.exif_rename.specs.Nested.{IsNested};
ghost use Rattle.exif_rename.specs.RenameRequests.{file_of, wanted_of};
ghost use Rattle.exif_inputs.specs.Requested.{absolute_by, ending_behind, file_for, in_folder, sidecars_by, sidecars_of, suffixes, wanted_for};

use exif_decisions::{name_of, slash_after};
use exif_rename::{RenameRequest, RequestFile, root_of, split_path};
use std::alloc::{AllocError, Global};

/// The folder that the new name of a file is below: the one that is given, or else that of the
/// file, without the folders of the name where it ends in them ([`root_of`]).
pub fn folder_for<'a>(into: &'a str, folder: &'a str, name: &str) -> &'a str
    ensures given { into.entry.now ≢ [] → result.now ≡ into.entry.now }
    ensures nested { into.entry.now ≡ [] → (root : List ℕ)
        → IsNested folder.entry.now name.now root → result.now ≡ root }
    ensures other { into.entry.now ≡ []
        → ((root : List ℕ) → IsNested folder.entry.now name.now root → ⊥)
        → result.now ≡ folder.entry.now }
{
    if into.is_empty() {
        root_of(folder, name)
    } else {
        into
    }
}

// What follows a stem in a path that begins with it.
fn ending_behind<'a>(stem: &str, path: &'a str) -> &'a str
    ensures { result.now ≡ ending_behind stem.now path.now }
{
    match path.strip_prefix(stem) {
        Some(ending) => ending,
        None => "",
    }
}

// A file with what follows the stem in its path.
fn file_for(alloc: Global, stem: &str, path: &str) -> Result<RequestFile, AllocError>
    ensures { IfOk result (λ file. file_of file ≡ file_for stem.now path.now) }
{
    Ok(RequestFile {
        old: String::from_str(alloc, path)?,
        ending: String::from_str(alloc, ending_behind(stem, path))?,
    })
}

/// A name in a folder.
pub fn in_folder(alloc: Global, folder: &str, name: &str) -> Result<String, AllocError>
    ensures { IfOk result (λ text. string_bytes text ≡ in_folder folder.now name.now) }
{
    let slash = slash_after(folder);
    format!(in alloc; "{folder}{slash}{name}")
}

/// A path from the root of the file system on, by where its links end; where nothing has it, by
/// where those of its folder end, with its name; else the path itself.
pub fn absolute_by(
    alloc: Global,
    path: &str,
    found: Option<&str>,
    folder: Option<&str>,
) -> Result<String, AllocError>
    ensures { IfOk result (λ text. string_bytes text
        ≡ absolute_by path.now (name_if found.entry) (name_if folder.entry)) }
{
    if let Some(found) = found {
        return String::from_str(alloc, found);
    }
    let name = name_of(path);
    match folder {
        Some(folder) if !name.is_empty() => in_folder(alloc, folder, name),
        _ => String::from_str(alloc, path),
    }
}

/// The new name that the files of a stem are to have, in a folder: what follows the stem in the
/// path of each follows the name.
pub fn request_for(
    alloc: Global,
    folder: &str,
    stem: &str,
    name: &str,
    paths: &[&str],
) -> Result<RenameRequest, AllocError>
    ensures { IfOk result (λ request. wanted_of request
        ≡ wanted_for folder.now stem.now name.now (map (λ path. path.now) paths.now)) }
{
    let base = in_folder(alloc, folder, name)?;
    let mut files = Vec::new(alloc);
    for path in paths {
        files.push(file_for(alloc, stem, path)?)?;
    }
    Ok(RenameRequest { base, files })
}

// What follows the name of a picture, or its whole name, in those of its sidecars.
fn suffixes() -> &'static [&'static str]
    ensures { map (λ s. s.now) result.now ≡ suffixes }
{
    &[".xmp", ".XMP", ".aae", ".AAE", ".thm", ".THM"]
}

// Adds the sidecars that a path may have with a suffix.
fn add_sidecars(
    alloc: Global,
    path: &str,
    suffix: &str,
    paths: &mut Vec<String>,
) -> Result<(), AllocError>
    ensures { OnOk result (map string_bytes paths.new.items
        ≡ map string_bytes paths.old.items ++ sidecars_by path.now suffix.now) }
{
    let (stem, ending) = split_path(path);
    paths.push(format!(in alloc; "{stem}{suffix}")?)?;
    if !ending.is_empty() {
        paths.push(format!(in alloc; "{path}{suffix}")?)?;
    }
    Ok(())
}

/// The paths that sidecars of a picture may have.
pub fn sidecars_of(alloc: Global, path: &str) -> Result<Vec<String>, AllocError>
    ensures { IfOk result (λ paths. map string_bytes paths.items ≡ sidecars_of path.now) }
{
    let all = suffixes();
    let mut paths = Vec::new(alloc);
    for suffix in all {
        add_sidecars(alloc, path, suffix, &mut paths)?;
    }
    Ok(paths)
}
