//! Properties by their paths: one property, the items of an array, and the texts of a language
//! alternative.
//!
//! An array with the path `dc:subject` has its items at `dc:subject[1]`, `dc:subject[2]` and so on.
//! The items of a language alternative (ISO 16684-1, 8.2.2.4) have a language each, as those of
//! `dc:title` have.

ghost use Rattle.std.specs.Prelude.{◌≡◌, ◌≢◌, ◌≤◌, [], length, map, IfOk};
ghost use Rattle.std.specs.Option.{option_map};
ghost use Rattle.exif_values.specs.Paths.{array_of, default_from, default_item, from_path, has_default_language, has_language, has_languages, has_path, is_alternative, is_item, item_path, properties_at, run_len, same_language, shares_language, texts_at};
ghost use Rattle.exif_xmp.specs.Properties.{bytes_view, property_view};

use exif_xmp::Property;
use std::alloc::{AllocError, Global};

/// The path of the array of which a path is the first item: `dc:subject` for `dc:subject[1]`.
pub fn array_of(path: &[u8]) -> Option<&[u8]>
    ensures { option_map (λ p. p.now) result ≡ array_of path.now }
{
    let len = path.len().saturating_sub(3);
    if path[len..] == b"[1]"[..] {
        return Some(&path[..len]);
    }
    None
}

// The path of an item of an array.
fn item_path(alloc: Global, array: &[u8], index: usize) -> Result<Vec<u8>, AllocError>
    ensures { IfOk result (λ path. path.items ≡ item_path array.now index) }
{
    let digits = index.to_string(alloc)?;
    let mut path = Vec::from_slice(alloc, array)?;
    path.push(b'[')?;
    path.extend_from_slice(digits.as_bytes())?;
    path.push(b']')?;
    Ok(path)
}

// Whether a property has a path.
fn has_path(path: &[u8], property: &Property) -> bool
    ensures { result ≡ has_path path.now (property_view property.now) }
{
    property.path.as_slice() == path
}

// Whether a property is this item of an array.
fn is_item(
    alloc: Global,
    array: &[u8],
    index: usize,
    property: &Property,
) -> Result<bool, AllocError>
    ensures { IfOk result (λ is. is ≡ is_item array.now index (property_view property.now)) }
{
    let path = item_path(alloc, array, index)?;
    Ok(has_path(path.as_slice(), property))
}

/// How many properties at the front are the items of an array, from its first one on. It takes the
/// memory of a path.
pub fn run_len(alloc: Global, array: &[u8], properties: &[Property]) -> Result<usize, AllocError>
    ensures value { IfOk result
        (λ n. n ≡ run_len array.now 1 (map property_view properties.now)) }
    ensures within { IfOk result (λ n. n ≤ length properties.now) }
{
    for i in 0..properties.len() {
        if !is_item(alloc, array, i + 1, &properties[i])? {
            return Ok(i);
        }
    }
    Ok(properties.len())
}

// The properties from the first with a path on.
fn from_path<'a>(path: &[u8], properties: &'a [Property]) -> &'a [Property]
    ensures { map property_view result.now
        ≡ from_path path.now (map property_view properties.entry.now) }
{
    for i in 0..properties.len() {
        if has_path(path, &properties[i]) {
            return &properties[i..];
        }
    }
    &[]
}

/// The first property with a path alone; where there is none, the items of the array with that path,
/// as far as they follow one another; else none. It takes the memory of a path.
pub fn properties_at<'a>(
    alloc: Global,
    path: &[u8],
    properties: &'a [Property],
) -> Result<&'a [Property], AllocError>
    ensures { IfOk result (λ found. map property_view found.now
        ≡ properties_at path.now (map property_view properties.entry.now)) }
{
    let from = from_path(path, properties);
    if !from.is_empty() {
        return Ok(&from[..1]);
    }
    let first = item_path(alloc, path, 1)?;
    let items = from_path(first.as_slice(), properties);
    let len = run_len(alloc, path, items)?;
    Ok(&items[..len])
}

// Whether a property has a language.
fn has_language(property: &Property) -> bool
    ensures { result ≡ has_language (property_view property.now) }
{
    match &property.language {
        Some(_) => true,
        None => false,
    }
}

// Whether each of the properties has one.
fn has_languages(items: &[Property]) -> bool
    ensures { result ≡ has_languages (map property_view items.now) }
{
    for item in items {
        if !has_language(item) {
            return false;
        }
    }
    true
}

// Whether two languages are the same.
fn same_language(one: &Option<Vec<u8>>, other: &Option<Vec<u8>>) -> bool
    ensures { result ≡ same_language (bytes_view one.now) (bytes_view other.now) }
{
    match (one, other) {
        (Some(one), Some(other)) => one.as_slice() == other.as_slice(),
        _ => false,
    }
}

// Whether the first two properties have the same language.
fn shares_language(items: &[Property]) -> bool
    ensures { result ≡ shares_language (map property_view items.now) }
{
    match items {
        [one, other, ..] => same_language(&one.language, &other.language),
        _ => false,
    }
}

/// Whether the items of an array are the texts of a language alternative: each has a language, and
/// the first two have not the same one, as where an element around an array has a language.
pub fn is_alternative(items: &[Property]) -> bool
    ensures { result ≡ is_alternative (map property_view items.now) }
{
    !items.is_empty() && has_languages(items) && !shares_language(items)
}

// Whether the text of a property is the one for any language.
fn has_default_language(property: &Property) -> bool
    ensures { result ≡ has_default_language (property_view property.now) }
{
    match &property.language {
        Some(language) => language.as_slice() == b"x-default".as_slice(),
        None => false,
    }
}

// The texts of an alternative from the one for any language on.
fn default_from(items: &[Property]) -> &[Property]
    ensures { map property_view result.now ≡ default_from (map property_view items.entry.now) }
{
    for i in 0..items.len() {
        if has_default_language(&items[i]) {
            return &items[i..];
        }
    }
    &[]
}

// The text of an alternative for any language (`x-default`), or else the first.
fn default_item(items: &[Property]) -> &[Property]
    ensures { map property_view result.now ≡ default_item (map property_view items.entry.now) }
{
    let found = default_from(items);
    if !found.is_empty() {
        return &found[..1];
    }
    &items[..items.len().min(1)]
}

/// The properties whose texts are shown of a path: those that [`properties_at`] finds, but of a
/// language alternative the text for any language (`x-default`), or else the first.
pub fn texts_at<'a>(
    alloc: Global,
    path: &[u8],
    properties: &'a [Property],
) -> Result<&'a [Property], AllocError>
    ensures { IfOk result (λ found. map property_view found.now
        ≡ texts_at path.now (map property_view properties.entry.now)) }
{
    let items = properties_at(alloc, path, properties)?;
    if is_alternative(items) {
        return Ok(default_item(items));
    }
    Ok(items)
}
