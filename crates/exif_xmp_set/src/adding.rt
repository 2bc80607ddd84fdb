//! A packet with one property more.

ghost use Rattle.std.specs.Prelude.{◌≡◌, ◌++◌, ◌+◌, ◌<◌, ◌^◌, None, map, IfOk, OnOk};
ghost use Rattle.exif_xml.specs.Scans.{run};
ghost use Rattle.exif_xmp.specs.Paths.{with_index};
ghost use Rattle.exif_xmp.specs.Properties.{property_view};
ghost use Rattle.exif_xmp_set.specs.Added.{add_item, add_text, array_added, array_description, array_name, array_of, block_added, checked_more, element_of, end_tag, given_view, goes_on, if_absent, is_no_colon, is_present, is_rdf, is_rdf_end, is_within, item, item_added, leads_in, opened, opening, prefix_of, rdf_end, start_tag, text_description, with_block};
ghost use Rattle.exif_xmp_set.specs.Refusals.{Gives};

use crate::context::{Context, bytes_behind, first_bytes, tag_name};
use crate::escaping::push_escaped;
use crate::fault::{Reason, SetError};
use crate::inserted::{Given, is_inserted};
use crate::items::{Array, LastItem, begins_with, last_item};
use crate::padding::push_fitted;
use exif_xml::scan::{byte_at, name_len};
use exif_xml::{invalid_character, slice_of};
use exif_xmp::{Property, ReadError, read};
use std::alloc::{AllocError, Global};

// How a description of its own begins.
#[tactic(auto, unfolding(crate::specs::Added::opening))]
fn opening() -> &'static [u8]
    ensures { result.now ≡ opening }
{
    b"<rdf:Description xmlns:rdf='http://www.w3.org/1999/02/22-rdf-syntax-ns#' rdf:about=''"
}

// Whether what follows a path is nothing, or leads into an array or a structure.
fn leads_in(rest: &[u8]) -> bool
    ensures { result ≡ leads_in rest.now }
{
    let first = byte_at(rest, 0);
    rest.is_empty() || first == b'[' || first == b'/'
}

// Whether a path is another one, or goes on behind it.
fn goes_on(path: &[u8], whole: &[u8]) -> bool
    ensures { result ≡ goes_on path.now whole.now }
{
    if !begins_with(path, whole) {
        return false;
    }
    leads_in(bytes_behind(whole, path.len()))
}

// Whether a property is the one of a namespace and path, or in it.
fn is_within(property: &Property, namespace: &[u8], path: &[u8]) -> bool
    ensures { result ≡ is_within namespace.now path.now (property_view property.now) }
{
    goes_on(path, property.path.as_slice()) && property.namespace.as_slice() == namespace
}

// Whether there is one.
fn is_present(properties: &[Property], namespace: &[u8], path: &[u8]) -> bool
    ensures { result ≡ is_present namespace.now path.now (map property_view properties.now) }
{
    for property in properties {
        if is_within(property, namespace, path) {
            return true;
        }
    }
    false
}

// Refuses a property that is there.
fn unless_present(properties: &[Property], namespace: &[u8], path: &[u8]) -> Result<(), Reason>
    ensures { result
        ≡ if_absent (is_present namespace.now path.now (map property_view properties.now)) }
{
    if is_present(properties, namespace, path) {
        Err(Reason::Present)
    } else {
        Ok(())
    }
}

// Whether a name is `RDF` behind a prefix.
fn is_rdf(name: &[u8]) -> bool
    ensures { result ≡ is_rdf name.now }
{
    bytes_behind(name, name.len().saturating_sub(4)) == b":RDF".as_slice()
}

// Whether bytes begin with the end tag of the element that has all descriptions.
#[tactic(auto, unfolding(crate::specs::Added::is_rdf_end))]
fn is_rdf_end(bytes: &[u8]) -> bool
    ensures { result ≡ is_rdf_end bytes.now }
{
    let behind = bytes_behind(bytes, 2);
    bytes.starts_with(b"</") && is_rdf(first_bytes(behind, name_len(behind)))
}

// The offset of the last one.
fn rdf_end(packet: &[u8]) -> Option<usize>
    ensures { result ≡ rdf_end None 0 packet.now }
{
    let mut found = None;
    for i in 0..packet.len() {
        if is_rdf_end(bytes_behind(packet, i)) {
            found = Some(i);
        }
    }
    found
}

// How many bytes a path has before its first colon.
fn prefix_len(path: &[u8]) -> usize
    ensures { result ≡ run is_no_colon path.now }
{
    for i in 0..path.len() {
        if path[i] == b':' {
            return i;
        }
    }
    path.len()
}

// The prefix of a path.
fn prefix_of(path: &[u8]) -> &[u8]
    ensures { result.now ≡ prefix_of path.now }
{
    first_bytes(path, prefix_len(path))
}

// Appends the start tag of a description of its own, without its end.
fn push_opened(out: &mut Vec<u8>, namespace: &[u8], path: &[u8]) -> Result<(), AllocError>
    ensures { OnOk result (out.new.items ≡ out.old.items ++ opened namespace.now path.now) }
{
    out.extend_from_slice(opening())?;
    out.extend_from_slice(b" xmlns:")?;
    out.extend_from_slice(prefix_of(path))?;
    out.extend_from_slice(b"='")?;
    push_escaped(out, Context::Quotes(b'\''), namespace)?;
    out.extend_from_slice(b"'")
}

// A description with a text as an attribute.
fn text_description(
    alloc: Global,
    namespace: &[u8],
    path: &[u8],
    text: &[u8],
) -> Result<Vec<u8>, AllocError>
    ensures { IfOk result (λ v. v.items ≡ text_description namespace.now path.now text.now) }
{
    let mut out = Vec::new(alloc);
    push_opened(&mut out, namespace, path)?;
    out.extend_from_slice(b" ")?;
    out.extend_from_slice(path)?;
    out.extend_from_slice(b"='")?;
    push_escaped(&mut out, Context::Quotes(b'\''), text)?;
    out.extend_from_slice(b"'/>\n")?;
    Ok(out)
}

// The name of an array.
fn array_name(array: Array) -> &'static [u8]
    ensures { result.now ≡ array_name array }
{
    match array {
        Array::Bag => b"rdf:Bag",
        Array::Seq => b"rdf:Seq",
    }
}

// Appends a start tag.
fn push_start(out: &mut Vec<u8>, name: &[u8]) -> Result<(), AllocError>
    ensures { OnOk result (out.new.items ≡ out.old.items ++ start_tag name.now) }
{
    out.extend_from_slice(b"<")?;
    out.extend_from_slice(name)?;
    out.extend_from_slice(b">")
}

// Appends an end tag.
fn push_end(out: &mut Vec<u8>, name: &[u8]) -> Result<(), AllocError>
    ensures { OnOk result (out.new.items ≡ out.old.items ++ end_tag name.now) }
{
    out.extend_from_slice(b"</")?;
    out.extend_from_slice(name)?;
    out.extend_from_slice(b">")
}

// Appends an item, as an element of a name.
fn push_item(out: &mut Vec<u8>, name: &[u8], text: &[u8]) -> Result<(), AllocError>
    ensures { OnOk result (out.new.items ≡ out.old.items ++ item name.now text.now) }
{
    push_start(out, name)?;
    push_escaped(out, Context::Content, text)?;
    push_end(out, name)
}

// Appends an array of one item.
fn push_array(out: &mut Vec<u8>, array: Array, text: &[u8]) -> Result<(), AllocError>
    ensures { OnOk result (out.new.items ≡ out.old.items ++ array_of array text.now) }
{
    push_start(out, array_name(array))?;
    push_item(out, b"rdf:li", text)?;
    push_end(out, array_name(array))
}

// Appends the element of a property with an array of one item.
fn push_element(out: &mut Vec<u8>, array: Array, path: &[u8], text: &[u8]) -> Result<(), AllocError>
    ensures { OnOk result (out.new.items ≡ out.old.items ++ element_of array path.now text.now) }
{
    push_start(out, path)?;
    push_array(out, array, text)?;
    push_end(out, path)
}

// A description with an array of one item.
fn array_description(
    alloc: Global,
    array: Array,
    namespace: &[u8],
    path: &[u8],
    text: &[u8],
) -> Result<Vec<u8>, AllocError>
    ensures { IfOk result (λ v. v.items
        ≡ array_description array namespace.now path.now text.now) }
{
    let mut out = Vec::new(alloc);
    push_opened(&mut out, namespace, path)?;
    out.extend_from_slice(b">")?;
    push_element(&mut out, array, path, text)?;
    out.extend_from_slice(b"</rdf:Description>\n")?;
    Ok(out)
}

// The packet with bytes at an offset, and its padding fitted to them.
fn with_block(alloc: Global, packet: &[u8], at: usize, block: &[u8]) -> Result<Vec<u8>, AllocError>
    ensures { IfOk result (λ v. v.items ≡ with_block packet.now at block.now) }
{
    let mut out = Vec::new(alloc);
    out.extend_from_slice(first_bytes(packet, at))?;
    out.extend_from_slice(block)?;
    push_fitted(alloc, &mut out, bytes_behind(packet, at), 0, block.len())?;
    Ok(out)
}

// The new packet, if it is read as the old one with a property more.
fn checked_more(
    alloc: Global,
    old: &[Property],
    at: usize,
    given: Given<'_>,
    new: Vec<u8>,
) -> Result<Vec<u8>, SetError>
    ensures { Gives (λ v. v.items) result
        (checked_more (map property_view old.now) at (given_view given.entry) new.items) }
{
    let read_again = match read(alloc, &new) {
        Ok(properties) => properties,
        Err(ReadError::OutOfMemory) => return Err(SetError::OutOfMemory),
        Err(ReadError::Refused(_)) => return Err(SetError::Refused(Reason::NotReadBack)),
    };
    if is_inserted(at, given, old, &read_again) {
        return Ok(new);
    }
    Err(SetError::Refused(Reason::NotReadBack))
}

// The packet with a description more.
fn block_added(
    alloc: Global,
    old: &[Property],
    packet: &[u8],
    given: Given<'_>,
    block: &[u8],
) -> Result<Vec<u8>, SetError>
    ensures { Gives (λ v. v.items) result (block_added (map property_view old.now) packet.now
        (given_view given.entry) block.now) }
{
    if let Err(reason) = unless_present(old, given.namespace, given.path) {
        return Err(SetError::Refused(reason));
    }
    let Some(at) = rdf_end(packet) else {
        return Err(SetError::Refused(Reason::NoPlace));
    };
    if let Some(offset) = invalid_character(given.text) {
        return Err(SetError::Refused(Reason::InvalidText(offset)));
    }
    let new = with_block(alloc, packet, at, block)?;
    checked_more(alloc, old, old.len(), given, new)
}

/// The packet with one property more, a text: `path` is its name with the usual prefix of its
/// namespace, as `xmp:Rating`, and `namespace` the URI of that.
///
/// A description of its own, with the namespaces that it needs and the text as an attribute, is put
/// behind the others (XMP Specification, Part 1, 7.4). All other bytes stay in their order, and the
/// padding takes up what the packet grows by, as [`set_text`](crate::set_text) has it. The new
/// packet is read again, and answered only if it has the same properties, and this one behind them
/// ([`added_is_read`](crate::laws::added_is_read)). It takes memory for the new packet, and for the
/// properties of both.
///
/// # Errors
///
/// [`SetError::Refused`]: the packet can't be read; the property is there, as a text, an array or a
/// structure; the packet has no place for it, as one whose `rdf:RDF` is empty; the text is not
/// valid; it is not read back. [`SetError::OutOfMemory`].
#[tactic(auto, unfolding(crate::specs::Added::add_text))]
pub fn add_text(
    alloc: Global,
    packet: &[u8],
    namespace: &[u8],
    path: &[u8],
    text: &[u8],
) -> Result<Vec<u8>, SetError>
    ensures answer { Gives (λ v. v.items) result
        (add_text packet.now namespace.now path.now text.now) }
{
    let old = read(alloc, packet)?;
    let block = text_description(alloc, namespace, path, text)?;
    let given = Given {
        namespace,
        path,
        text,
    };
    block_added(alloc, &old, packet, given, &block)
}

// The path of an item of an array.
fn item_path(alloc: Global, path: &[u8], index: usize) -> Result<Vec<u8>, AllocError>
    ensures { IfOk result (λ v. v.items ≡ with_index path.now index) }
{
    let digits = index.to_string(alloc)?;
    let mut out = Vec::from_slice(alloc, path)?;
    out.push(b'[')?;
    out.extend_from_slice(digits.as_bytes())?;
    out.push(b']')?;
    Ok(out)
}

// The packet with an item behind the last one of an array.
fn item_added(
    alloc: Global,
    old: &[Property],
    packet: &[u8],
    last: LastItem,
    given: Given<'_>,
) -> Result<Vec<u8>, SetError>
    requires position { last.position + 1 < 2 ^ 64 }
    requires count { last.count + 1 < 2 ^ 64 }
    ensures { Gives (λ v. v.items) result (item_added (map property_view old.now) packet.now last
        given.entry.namespace.now given.entry.path.now given.entry.text.now) }
{
    if let Some(offset) = invalid_character(given.text) {
        return Err(SetError::Refused(Reason::InvalidText(offset)));
    }
    let mut block = Vec::new(alloc);
    push_item(
        &mut block,
        tag_name(slice_of(packet, last.whole)),
        given.text,
    )?;
    let new = with_block(alloc, packet, last.whole.end, &block)?;
    let path = item_path(alloc, given.path, last.count + 1)?;
    let item = Given {
        path: path.as_slice(),
        ..given
    };
    checked_more(alloc, old, last.position + 1, item, new)
}

// The packet with an array of one item.
fn array_added(
    alloc: Global,
    old: &[Property],
    packet: &[u8],
    array: Array,
    given: Given<'_>,
) -> Result<Vec<u8>, SetError>
    ensures { Gives (λ v. v.items) result (array_added array (map property_view old.now) packet.now
        given.entry.namespace.now given.entry.path.now given.entry.text.now) }
{
    if let Err(reason) = unless_present(old, given.namespace, given.path) {
        return Err(SetError::Refused(reason));
    }
    let block = array_description(alloc, array, given.namespace, given.path, given.text)?;
    let path = item_path(alloc, given.path, 1)?;
    let item = Given {
        path: path.as_slice(),
        ..given
    };
    block_added(alloc, old, packet, item, &block)
}

/// The packet with one item more at the end of an array of texts, as a keyword of `dc:subject`: an
/// element of the same name as the last one, behind it. Where there is no such array, it is made, in
/// a description of its own, as [`add_text`] does.
///
/// The new packet is read again, and answered only if it has the same properties, and the item with
/// the next index behind the last one ([`added_is_read`](crate::laws::added_is_read)).
///
/// # Errors
///
/// As [`add_text`] has them; a property of this name that is no array of texts is there.
#[tactic(auto, unfolding(crate::specs::Added::add_item))]
pub fn add_item(
    alloc: Global,
    packet: &[u8],
    namespace: &[u8],
    path: &[u8],
    array: Array,
    text: &[u8],
) -> Result<Vec<u8>, SetError>
    ensures answer { Gives (λ v. v.items) result
        (add_item packet.now namespace.now path.now array text.now) }
{
    let old = read(alloc, packet)?;
    let given = Given {
        namespace,
        path,
        text,
    };
    match last_item(&old, namespace, path) {
        Some(last) => item_added(alloc, &old, packet, last, given),
        None => array_added(alloc, &old, packet, array, given),
    }
}
