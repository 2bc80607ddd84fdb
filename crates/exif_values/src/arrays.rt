//! The items of an array of XMP.

ghost use Rattle.std.specs.Prelude.{◌≡◌, map, IfOk};
ghost use Rattle.std.specs.Option.{option_map};
ghost use Rattle.exif_values.specs.Arrays.{array_of, begins, behind, belongs, default_text, first_text, from_first, has_language, index_of, is_index, is_item, preferred_text, text_of, texts_of};
ghost use Rattle.exif_xmp.specs.Properties.{bytes_view, property_view};

use exif_xmp::{Form, Property};
use std::alloc::{AllocError, Global};

// What is behind a name in a path that begins with it.
fn behind<'a>(path: &'a [u8], name: &[u8]) -> Option<&'a [u8]>
    ensures { option_map (λ b. b.now) result ≡ behind name.now path.now }
{
    path.strip_prefix(name)
}

/// What is behind a name in the path of a property of a namespace, which the URI says.
pub(crate) fn index_of<'a>(
    property: &'a Property,
    namespace: &[u8],
    name: &[u8],
) -> Option<&'a [u8]>
    ensures { option_map (λ b. b.now) result
        ≡ index_of namespace.now name.now (property_view property.now) }
{
    if property.namespace.as_slice() == namespace {
        return behind(property.path.as_slice(), name);
    }
    None
}

// Whether what is behind the name of an array is an index, or nothing: a property that is no array
// has one item.
fn is_index(rest: &[u8]) -> bool
    ensures { result ≡ is_index rest.now }
{
    match rest {
        [] => true,
        [first, ..] => *first == b'[' && !rest.contains(&b'/'),
    }
}

// Whether a property is an item of an array.
fn is_item(property: &Property, namespace: &[u8], name: &[u8]) -> bool
    ensures { result ≡ is_item namespace.now name.now (property_view property.now) }
{
    match index_of(property, namespace, name) {
        Some(rest) => is_index(rest),
        None => false,
    }
}

// Whether a property is the first item of an array.
fn begins(property: &Property, namespace: &[u8], name: &[u8]) -> bool
    ensures { result ≡ begins namespace.now name.now (property_view property.now) }
{
    match index_of(property, namespace, name) {
        Some(rest) => rest.is_empty() || rest == b"[1]".as_slice(),
        None => false,
    }
}

// The properties from the first item of an array on.
fn from_first<'a>(properties: &'a [Property], namespace: &[u8], name: &[u8]) -> &'a [Property]
    ensures { map property_view result.now
        ≡ from_first namespace.now name.now (map property_view properties.now) }
{
    for i in 0..properties.len() {
        if is_item(&properties[i], namespace, name) {
            return &properties[i..];
        }
    }
    &properties[properties.len()..]
}

// Whether a property is of the same array as so many items before it.
fn belongs(property: &Property, namespace: &[u8], name: &[u8], count: usize) -> bool
    ensures { result ≡ belongs namespace.now name.now count (property_view property.now) }
{
    is_item(property, namespace, name) && (count == 0 || !begins(property, namespace, name))
}

/// The items of the first array of this name and namespace: those before another first item, as
/// another packet has it.
pub(crate) fn array_of<'a>(
    properties: &'a [Property],
    namespace: &[u8],
    name: &[u8],
) -> &'a [Property]
    ensures { map property_view result.now
        ≡ array_of namespace.now name.now (map property_view properties.now) }
{
    let all = from_first(properties, namespace, name);
    for i in 0..all.len() {
        if !belongs(&all[i], namespace, name, i) {
            return &all[..i];
        }
    }
    all
}

/// The text of a property, if it has one that is not empty.
pub(crate) fn text_of(property: &Property) -> Option<&[u8]>
    ensures { option_map (λ b. b.now) result ≡ text_of (property_view property.now) }
{
    let text = property.text.as_slice();
    match property.form {
        Form::Text if !text.is_empty() => Some(text),
        _ => None,
    }
}

/// The texts of properties.
pub(crate) fn texts_of(alloc: Global, properties: &[Property]) -> Result<Vec<Vec<u8>>, AllocError>
    ensures { IfOk result (λ v. map (λ t. t.items) v.items
        ≡ texts_of (map property_view properties.now)) }
{
    let mut texts = Vec::new(alloc);
    for property in properties {
        if let Some(text) = text_of(property) {
            texts.push(Vec::from_slice(alloc, text)?)?;
        }
    }
    Ok(texts)
}

/// The first text of properties.
pub(crate) fn first_text(
    alloc: Global,
    properties: &[Property],
) -> Result<Option<Vec<u8>>, AllocError>
    ensures { IfOk result (λ o. bytes_view o ≡ first_text (map property_view properties.now)) }
{
    for property in properties {
        if let Some(text) = text_of(property) {
            return Ok(Some(Vec::from_slice(alloc, text)?));
        }
    }
    Ok(None)
}

// Whether a property has the text for every language.
fn has_language(property: &Property) -> bool
    ensures { result ≡ has_language (property_view property.now) }
{
    match &property.language {
        Some(language) => language.as_slice() == b"x-default".as_slice(),
        None => false,
    }
}

// The first text for every language.
fn default_text(alloc: Global, properties: &[Property]) -> Result<Option<Vec<u8>>, AllocError>
    ensures { IfOk result (λ o. bytes_view o ≡ default_text (map property_view properties.now)) }
{
    for property in properties {
        if has_language(property) {
            if let Some(text) = text_of(property) {
                return Ok(Some(Vec::from_slice(alloc, text)?));
            }
        }
    }
    Ok(None)
}

/// The text for every language (`x-default`), or else the first one.
pub(crate) fn preferred_text(
    alloc: Global,
    properties: &[Property],
) -> Result<Option<Vec<u8>>, AllocError>
    ensures { IfOk result (λ o. bytes_view o
        ≡ preferred_text (map property_view properties.now)) }
{
    match default_text(alloc, properties)? {
        Some(text) => Ok(Some(text)),
        None => first_text(alloc, properties),
    }
}
