//! A text is set.

ghost use Rattle.std.specs.Prelude.{◌≡◌, map, IfOk};
ghost use Rattle.exif_xmp.specs.Properties.{property_view};
ghost use Rattle.exif_xmp_set.specs.Refusals.{Gives};
ghost use Rattle.exif_xmp_set.specs.Setting.{checked, set_text, with_text};

use crate::context::{bytes_behind, context_of, first_bytes, replaced_span, tag_name};
use crate::escaping::push_written;
use crate::fault::{Reason, SetError};
use crate::found::{Found, settable};
use crate::padding::push_fitted;
use crate::read_back::is_replaced;
use exif_xml::{invalid_character, slice_of};
use exif_xmp::{Property, ReadError, read};
use std::alloc::{AllocError, Global};

// The packet with another text for a property.
#[tactic(auto, unfolding(crate::specs::Setting::with_text))]
fn with_text(alloc: Global, packet: &[u8], found: Found, text: &[u8]) -> Result<Vec<u8>, AllocError>
    ensures { IfOk result (λ v. v.items ≡ with_text packet.now found text.now) }
{
    let context = context_of(packet, found);
    let span = replaced_span(context, found);
    let name = tag_name(slice_of(packet, found.whole));
    let mut value = Vec::new(alloc);
    push_written(&mut value, context, name, text)?;
    let mut out = Vec::new(alloc);
    out.extend_from_slice(first_bytes(packet, span.start))?;
    out.extend_from_slice(&value)?;
    let tail = bytes_behind(packet, span.end);
    let old = span.end.saturating_sub(span.start);
    push_fitted(alloc, &mut out, tail, old, value.len())?;
    Ok(out)
}

// The new packet, if it is read as the old one with the text replaced.
fn checked(
    alloc: Global,
    old: &[Property],
    new: Vec<u8>,
    namespace: &[u8],
    path: &[u8],
    text: &[u8],
) -> Result<Vec<u8>, SetError>
    ensures { Gives (λ v. v.items) result
        (checked (map property_view old.now) new.items namespace.now path.now text.now) }
{
    let read_again = match read(alloc, &new) {
        Ok(properties) => properties,
        Err(ReadError::OutOfMemory) => return Err(SetError::OutOfMemory),
        Err(ReadError::Refused(_)) => return Err(SetError::Refused(Reason::NotReadBack)),
    };
    if is_replaced(old, &read_again, namespace, path, text) {
        return Ok(new);
    }
    Err(SetError::Refused(Reason::NotReadBack))
}

/// The packet with another text for the first property of this namespace and path, as
/// [`exif_xmp::read`] lists it: `path` is such a path as `dc:format` or `dc:subject[2]`, and
/// `namespace` the URI of its namespace.
///
/// The text replaces all that the value has, with references for `&`, `<`, `>` and CR, and in the
/// value of an attribute for its quote, tab and LF (XML 1.0, 2.4, 2.11 and 3.3.3). An empty-element
/// tag gets an end tag. Other bytes stay in their order, but for white space just before the
/// trailer, `<?xpacket end=..?>` (XMP Specification, Part 1, 7.3): where the value shrinks, spaces
/// are added to it, and where the value grows, as many bytes of it go, if it has as many. So the
/// packet keeps its length ([`length_stays`](crate::laws::length_stays)).
///
/// The new packet is read again, and answered only if it has the same properties with the text
/// replaced ([`read_back`](crate::laws::read_back)). It takes memory for the new packet, and for
/// the properties of both.
///
/// # Errors
///
/// [`SetError::Refused`] with the first [`Reason`] in the order of its variants.
/// [`SetError::OutOfMemory`].
#[tactic(auto, unfolding(crate::specs::Setting::set_text))]
pub fn set_text(
    alloc: Global,
    packet: &[u8],
    namespace: &[u8],
    path: &[u8],
    text: &[u8],
) -> Result<Vec<u8>, SetError>
    ensures answer { Gives (λ v. v.items) result
        (set_text packet.now namespace.now path.now text.now) }
{
    let properties = read(alloc, packet)?;
    let found = match settable(&properties, namespace, path) {
        Ok(found) => found,
        Err(reason) => return Err(SetError::Refused(reason)),
    };
    if let Some(offset) = invalid_character(text) {
        return Err(SetError::Refused(Reason::InvalidText(offset)));
    }
    let new = with_text(alloc, packet, found, text)?;
    checked(alloc, &properties, new, namespace, path, text)
}
