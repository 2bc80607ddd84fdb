//! The path of a property.

ghost use Rattle.std.specs.Prelude.{◌≡◌, IfOk};
ghost use Rattle.exif_xmp.specs.Paths.{path_of, root_of, uri_or, with_index, with_name, with_step};

use crate::frame::Frame;
use exif_xml::{Name, Span, slice_of, usual_prefix};
use std::alloc::{AllocError, Global};

/// What an element adds to the path of the properties in it.
#[derive(Clone, Copy)]
pub enum Step {
    /// Nothing.
    Nothing,
    /// A name.
    Named(Name),
    /// An index of an array, from 1 on.
    Item(usize),
}

// A path with an index of an array.
fn with_index(alloc: Global, mut path: Vec<u8>, index: usize) -> Result<Vec<u8>, AllocError>
    ensures { IfOk result (λ v. v.items ≡ with_index path.items index) }
{
    let digits = index.to_string(alloc)?;
    path.push(b'[')?;
    path.extend_from_slice(digits.as_bytes())?;
    path.push(b']')?;
    Ok(path)
}

// A path with a name.
fn with_name(packet: &[u8], mut path: Vec<u8>, name: Name) -> Result<Vec<u8>, AllocError>
    ensures { IfOk result (λ v. v.items ≡ with_name packet.now path.items name) }
{
    if path.len() != 0 {
        path.push(b'/')?;
    }
    path.extend_from_slice(usual_prefix(
        slice_of(packet, name.uri),
        slice_of(packet, name.prefix),
    ))?;
    path.push(b':')?;
    path.extend_from_slice(slice_of(packet, name.local))?;
    Ok(path)
}

// A path with a step.
fn with_step(alloc: Global, packet: &[u8], path: Vec<u8>, step: Step) -> Result<Vec<u8>, AllocError>
    ensures { IfOk result (λ v. v.items ≡ with_step packet.now path.items step) }
{
    match step {
        Step::Nothing => Ok(path),
        Step::Named(name) => with_name(packet, path, name),
        Step::Item(index) => with_index(alloc, path, index),
    }
}

/// The path of a property in open elements: their steps, that of the innermost one, `top`, and
/// `last`.
#[tactic(auto, unfolding(crate::specs::Paths::path_of))]
pub fn path_of(
    alloc: Global,
    packet: &[u8],
    frames: &[Frame],
    top: Step,
    last: Step,
) -> Result<Vec<u8>, AllocError>
    ensures { IfOk result (λ v. v.items ≡ path_of packet.now frames.now top last) }
{
    let mut path = Vec::new(alloc);
    for i in 0..frames.len() {
        path = with_step(alloc, packet, path, frames[i].step)?;
    }
    let path = with_step(alloc, packet, path, top)?;
    let path = with_step(alloc, packet, path, last)?;
    Ok(path)
}

// The URI of a step, or else another one.
fn uri_or(step: Step, other: Span) -> Span
    ensures { result ≡ uri_or step other }
{
    match step {
        Step::Nothing => other,
        Step::Named(name) => name.uri,
        Step::Item(_) => other,
    }
}

/// The namespace of the outermost property; empty where there is none.
#[tactic(auto, unfolding(crate::specs::Paths::root_of))]
pub fn root_of(frames: &[Frame], top: Step, last: Step) -> Span
    ensures { result ≡ root_of frames.now top last }
{
    for i in 0..frames.len() {
        if let Step::Named(name) = frames[i].step {
            return name.uri;
        }
    }
    uri_or(top, uri_or(last, Span { start: 0, end: 0 }))
}
