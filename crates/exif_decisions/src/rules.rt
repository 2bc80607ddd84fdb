//! What the program does with a name, an OUT and a word.

ghost use Rattle.std.specs.Prelude.{◌≡◌, ◌≤◌, true, drop, length};
ghost use Rattle.std.specs.Char.{is_ascii_digit};
ghost use Rattle.std.specs.List.{list_all};
ghost use Rattle.exif_decisions.specs.Rules.{action_by_name, action_for, destination_for, existing_for, is_own, is_temporary, assigns, kind_for, look_for};

use crate::escaped::is_unreadable;

/// What a path is.
#[derive(Clone, Copy, PartialEq, Eq)]
pub enum Kind {
    File,
    Folder,
    Link,
    Other,
}

/// The kind of a path, by what the system says of it.
pub fn kind_of(is_folder: bool, is_file: bool, is_link: bool) -> Kind
    ensures { result ≡ kind_for is_folder is_file is_link }
{
    if is_folder {
        Kind::Folder
    } else if is_file {
        Kind::File
    } else if is_link {
        Kind::Link
    } else {
        Kind::Other
    }
}

/// What a path is before the system is asked.
#[derive(Clone, Copy, PartialEq, Eq)]
pub enum Look {
    /// Standard input.
    Input,
    /// A name that is no UTF-8, as [`readable`](crate::readable) writes it.
    Unreadable,
    /// Another one.
    Path,
}

/// What a path is before the system is asked: `-` is standard input only where it was named.
pub fn look_of(path: &str, is_named: bool) -> Look
    ensures { result ≡ look_for path.now is_named }
{
    if is_named && path == "-" {
        Look::Input
    } else if is_unreadable(path) {
        Look::Unreadable
    } else {
        Look::Path
    }
}

/// What is done with a path.
#[derive(Clone, Copy, PartialEq, Eq)]
pub enum Action {
    /// It is processed.
    Process,
    /// It is processed if it is a picture.
    ProcessPicture,
    /// What is in it is processed.
    Enter,
    /// It is a folder, and only files are processed.
    RefuseFolder,
    /// It is skipped and counted as a link.
    SkipLink,
    /// It is skipped and counted as a file of the program's own.
    SkipOwn,
    /// The same, and it is reported: a file that is being written, or that a run left.
    SkipTemporary,
    /// It is skipped: a device, say.
    Ignore,
}

// What is done with a file of this name that was found in a folder.
fn action_by_name(name: &str) -> Action
    ensures { result ≡ action_by_name name.now }
{
    if is_temporary_name(name) {
        Action::SkipTemporary
    } else if is_own_name(name) {
        Action::SkipOwn
    } else {
        Action::ProcessPicture
    }
}

/// What is done with a path, whose last part is `name`: one that was named, whose links were
/// followed, or one that was found in a folder.
pub fn action_of(kind: Kind, is_named: bool, name: &str, recursive: bool) -> Action
    ensures { result ≡ action_for kind is_named name.now recursive }
{
    match (kind, is_named) {
        (Kind::Folder, true) if !recursive => Action::RefuseFolder,
        (Kind::Folder, _) => Action::Enter,
        (_, true) => Action::Process,
        (Kind::Link, false) => Action::SkipLink,
        (Kind::Other, false) => Action::Ignore,
        (Kind::File, false) => action_by_name(name),
    }
}

/// Whether a file's name is one that the program gives: that of a backup, or of a file that is
/// being written.
pub fn is_own_name(name: &str) -> bool
    ensures { result ≡ is_own name.now }
{
    let name = name.as_bytes();
    name.starts_with(b".mexaldor-") || name.ends_with(b".orig")
}

/// Whether a file's name is that of a file that is being written, or that a run left which was
/// interrupted.
pub fn is_temporary_name(name: &str) -> bool
    ensures { result ≡ is_temporary name.now }
{
    let name = name.as_bytes();
    name.starts_with(b".mexaldor-") && name.len() > 10 && are_digits(bytes_from(name, 10))
}

// The bytes from an index on.
fn bytes_from(bytes: &[u8], at: usize) -> &[u8]
    requires { at ≤ length bytes.now }
    ensures { result.now ≡ drop at bytes.now }
{
    &bytes[at..]
}

fn are_digits(bytes: &[u8]) -> bool
    ensures { result ≡ list_all is_ascii_digit bytes.now }
{
    bytes.iter().all(|byte| byte.is_ascii_digit())
}

/// What an OUT is.
#[derive(Clone, Copy, PartialEq, Eq)]
pub enum Existing {
    /// Nothing.
    Absent,
    /// A regular file.
    Regular,
    /// A folder or a device, say.
    Special,
}

/// What an OUT is: whether the file that it leads to is a regular one, if it leads to one, and
/// whether the name itself is there. A link that leads nowhere is no regular file.
pub fn existing_of(leads_to_file: Option<bool>, is_there: bool) -> Existing
    ensures { result ≡ existing_for leads_to_file is_there }
{
    match leads_to_file {
        Some(true) => Existing::Regular,
        Some(false) => Existing::Special,
        None if is_there => Existing::Special,
        None => Existing::Absent,
    }
}

/// Where a new file is written.
#[derive(Clone, Copy, PartialEq, Eq)]
pub enum Destination {
    /// To standard output.
    StandardOutput,
    /// To a name that nothing has.
    New,
    /// In place of the file that is there.
    Replace,
}

/// Why no new file is written.
#[derive(Clone, Copy, PartialEq, Eq)]
pub enum NoDestination {
    /// OUT is FILE itself.
    Same,
    /// OUT exists.
    Exists,
    /// OUT is no regular file.
    Special,
}

/// Where a new file is written, or why it is not: OUT must be another file than FILE, and must not
/// exist unless that is forced.
pub fn destination_of(
    is_dash: bool,
    is_same: bool,
    existing: Existing,
    force: bool,
) -> Result<Destination, NoDestination>
    ensures { result ≡ destination_for is_dash is_same existing force }
{
    if is_dash {
        return Ok(Destination::StandardOutput);
    }
    if is_same {
        return Err(NoDestination::Same);
    }
    match existing {
        Existing::Absent => Ok(Destination::New),
        _ if !force => Err(NoDestination::Exists),
        Existing::Regular => Ok(Destination::Replace),
        Existing::Special => Err(NoDestination::Special),
    }
}

/// Whether a word of `set` is an assignment, and no file: it has a `=`, and before that no `/`.
pub fn is_assignment(word: &str) -> bool
    ensures { result ≡ assigns word.now }
{
    for byte in word.as_bytes() {
        if *byte == b'=' {
            return true;
        }
        if *byte == b'/' {
            return false;
        }
    }
    false
}
