//! Parts of a video that may still hold a location.

ghost use Rattle.std.specs.List.{list_all};
ghost use Rattle.std.specs.Prelude.{◌≡◌, ◌++◌, Some, IfOk, OnOk};
ghost use Rattle.exif_movie_scrub.specs.Remainders.{all_remaining, is_done_part, reason_of, remaining_of, remaining_view, settled};

use crate::request::{Request, zeroed_of};
use crate::zeros::{Zeroed, is_done};
use exif_movie::{Kind, Part, Subject, bytes_of, parts};
use std::alloc::{AllocError, Global};
use std::fmt;

/// Why a part may still hold a location.
#[derive(Clone, Copy, Debug, PartialEq, Eq)]
pub enum Reason {
    /// It is the handler of a track whose samples are texts or data, which are not looked at.
    TimedSamples,
    /// It is a text, which is not judged.
    Text,
    /// It is a box of a type that is not known.
    NotKnown,
    /// It is free space with other bytes than zeros.
    FilledFree,
    /// It is a box that lies too deep to be opened.
    NotOpened,
    /// It is no whole box.
    Broken,
}

impl fmt::Display for Reason {
    ghost use Rattle.exif_movie_scrub.specs.Texts.{reason_text};

    ghost output = { λ reason. Some (reason_text reason) };

    fn fmt<W: fmt::Write>(&self, f: &mut fmt::Formatter<W>) -> fmt::Result {
        f.write_str(match self {
            Reason::TimedSamples => "samples of a track are texts or data",
            Reason::Text => "a text is not judged",
            Reason::NotKnown => "a box is of an unknown type",
            Reason::FilledFree => "free space has other bytes than zeros",
            Reason::NotOpened => "a box is too deep to be opened",
            Reason::Broken => "bytes are no whole box",
        })
    }
}

/// A part that may still hold a location.
#[derive(Clone, Copy, Debug, PartialEq, Eq)]
pub struct Remaining {
    /// The part.
    pub part: Part,
    /// Why it may.
    pub reason: Reason,
}

// Why a part of which nothing becomes zeros may hold a location.
fn reason_of(kind: Kind) -> Option<Reason>
    ensures { result ≡ reason_of kind }
{
    match kind {
        Kind::TimedHandler => Some(Reason::TimedSamples),
        Kind::UserData(Subject::Other) | Kind::Item(Subject::Other) => Some(Reason::Text),
        Kind::Unknown | Kind::UnknownInner => Some(Reason::NotKnown),
        Kind::FilledFree => Some(Reason::FilledFree),
        Kind::Unopened(_) => Some(Reason::NotOpened),
        Kind::Broken => Some(Reason::Broken),
        _ => None,
    }
}

// A part, if nothing of it becomes zeros though it may hold a location.
fn remaining_of(request: Request, part: Part) -> Option<Remaining>
    ensures { result ≡ remaining_of request part }
{
    match (zeroed_of(request, part), reason_of(part.kind)) {
        (Zeroed::Nothing, Some(reason)) => Some(Remaining { part, reason }),
        _ => None,
    }
}

// Those of these parts that may hold a location.
fn all_remaining(
    alloc: Global,
    request: Request,
    parts: &[Part],
) -> Result<Vec<Remaining>, AllocError>
    ensures { IfOk result (λ found. found.items ≡ all_remaining request parts.now) }
{
    let mut found = Vec::new(alloc);
    for part in parts {
        if let Some(remaining) = remaining_of(request, *part) {
            found.push(remaining)?;
        }
    }
    Ok(found)
}

// Whether nothing of a part is left to become zeros.
fn is_done_part(request: Request, file: &[u8], part: Part) -> bool
    ensures { result ≡ is_done_part request file.now part }
{
    is_done(zeroed_of(request, part), bytes_of(part, file))
}

// The same of all parts.
fn are_done(request: Request, file: &[u8], parts: &[Part]) -> bool
    ensures { result ≡ list_all (is_done_part request file.now) parts.now }
{
    for part in parts {
        if !is_done_part(request, file, *part) {
            return false;
        }
    }
    true
}

/// The parts of a video that may hold a location, in their order. `None` if its parts are not
/// listed, or if something of one is left to become zeros.
pub fn find_remaining(
    alloc: Global,
    request: Request,
    file: &[u8],
) -> Result<Option<Vec<Remaining>>, AllocError>
    ensures { IfOk result (λ found. remaining_view found ≡ settled request file.now) }
{
    match parts(alloc, file)? {
        Ok(found) if are_done(request, file, &found) => {
            Ok(Some(all_remaining(alloc, request, &found)?))
        }
        _ => Ok(None),
    }
}
