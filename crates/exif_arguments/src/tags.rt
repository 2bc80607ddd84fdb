//! Tags by their names.

ghost use Rattle.std.specs.Prelude.{◌≡◌, IfOk, string_bytes};
ghost use Rattle.exif_arguments.specs.Unknown.{tags_in, unknown_tag};
ghost use Rattle.exif_arguments.specs.Views.{answer_by};

use crate::selection::Answer;
use exif::Tag;
use exif_columns::tags_of;
use exif_decisions::{Escaped, nearest};
use std::alloc::{AllocError, Global};

/// The message about a tag that is not known.
pub fn unknown_tag(alloc: Global, name: &str) -> Result<String, AllocError>
    ensures { IfOk result (λ text. string_bytes text ≡ unknown_tag name.now) }
{
    let shown = Escaped(name);
    match nearest(alloc, name)? {
        Some(tag) => format!(in alloc; "unknown tag '{shown}'; did you mean '{tag}'?"),
        None => format!(in alloc; "unknown tag '{shown}'; run 'mexaldor tags' for a list"),
    }
}

/// The tags of a list of names with commas between them.
pub fn tags_in(alloc: Global, list: &str) -> Answer<Vec<Tag>>
    ensures { IfOk result (λ answer. answer_by (λ tags. tags.items) answer ≡ tags_in list.now) }
{
    match tags_of(alloc, list)? {
        Ok(tags) => Ok(Ok(tags)),
        Err(name) => Ok(Err(unknown_tag(alloc, name)?)),
    }
}
