//! The names of the people in a picture, as its regions have them.

ghost use Rattle.std.specs.Prelude.{◌≡◌, ◌==◌, ◌<◌, length, map, position, IfOk, IfSome};
ghost use Rattle.std.specs.Option.{option_map};
ghost use Rattle.exif_values.specs.Regions.{begun, field_at, field_of, field_view, microsoft_names, person_name, region_field, region_names, region_view, with_face, with_field};
ghost use Rattle.exif_xmp.specs.Properties.{property_view};

use crate::arrays::{index_of, text_of};
use exif_xmp::Property;
use std::alloc::{AllocError, Global};

// A field of an item of an array of structures.
#[derive(Clone, Copy)]
struct Field<'a> {
    // The index of the item.
    index: &'a [u8],
    // What is behind the index, as `/mwg-rs:Name`.
    name: &'a [u8],
}

// A region: its index, its name, which may be empty, and whether it is a face.
#[derive(Clone, Copy)]
struct Region<'a> {
    index: &'a [u8],
    name: &'a [u8],
    is_face: bool,
}

// Where the index ends of which this is behind `[`.
fn end_of(rest: &[u8]) -> Option<usize>
    ensures first { result ≡ position (λ b. b == 93) rest.now }
    ensures within { IfSome result (λ end. end < length rest.now) }
{
    rest.iter().position(|b| *b == b']')
}

// The field of which this is behind `[`.
fn field_at(rest: &[u8]) -> Option<Field<'_>>
    ensures { option_map field_view result ≡ field_at rest.now }
{
    match end_of(rest) {
        Some(end) => Some(Field {
            index: &rest[..end],
            name: &rest[end + 1..],
        }),
        None => None,
    }
}

// The field of an item that a property is, if it is one of this array, whose name ends with `[`.
fn field_of<'a>(property: &'a Property, namespace: &[u8], array: &[u8]) -> Option<Field<'a>>
    ensures { option_map field_view result
        ≡ field_of namespace.now array.now (property_view property.now) }
{
    field_at(index_of(property, namespace, array)?)
}

// The field of a region (Metadata Working Group, Guidelines for Handling Image Metadata, 2.0).
fn region_field(property: &Property) -> Option<Field<'_>>
    ensures { option_map field_view result ≡ region_field (property_view property.now) }
{
    field_of(
        property,
        b"http://www.metadataworkinggroup.com/schemas/regions/",
        b"mwg-rs:Regions/mwg-rs:RegionList[",
    )
}

// A region of which nothing is known but its index.
fn begun<'a>(index: &'a [u8]) -> Region<'a>
    ensures { region_view result ≡ begun index.now }
{
    Region {
        index,
        name: b"",
        is_face: false,
    }
}

// A region with what a field says. The first name counts.
fn with_field<'a>(region: Region<'a>, name: &[u8], text: &'a [u8]) -> Region<'a>
    ensures { region_view result ≡ with_field (region_view region.entry) name.now text.now }
{
    if name == b"/mwg-rs:Name".as_slice() && region.name.is_empty() {
        return Region {
            name: text,
            ..region
        };
    }
    if name == b"/mwg-rs:Type".as_slice() && text == b"Face".as_slice() {
        return Region {
            is_face: true,
            ..region
        };
    }
    region
}

// The names with that of a region, if it is a face and has one.
fn with_face(
    alloc: Global,
    mut names: Vec<Vec<u8>>,
    region: Region<'_>,
) -> Result<Vec<Vec<u8>>, AllocError>
    ensures { IfOk result (λ v. map (λ t. t.items) v.items
        ≡ with_face (map (λ t. t.items) names.items) (region_view region.entry)) }
{
    if region.is_face && !region.name.is_empty() {
        names.push(Vec::from_slice(alloc, region.name)?)?;
    }
    Ok(names)
}

/// The names of the regions that are faces, in order. The fields of a region are next to one
/// another, as they are in its element.
pub(crate) fn region_names(
    alloc: Global,
    properties: &[Property],
) -> Result<Vec<Vec<u8>>, AllocError>
    ensures { IfOk result (λ v. map (λ t. t.items) v.items
        ≡ region_names (map property_view properties.now)) }
{
    let mut names = Vec::new(alloc);
    let mut region = begun(b"");
    for property in properties {
        if let Some(field) = region_field(property) {
            if field.index != region.index {
                names = with_face(alloc, names, region)?;
                region = begun(field.index);
            }
            region = with_field(region, field.name, property.text.as_slice());
        }
    }
    with_face(alloc, names, region)
}

// The name that a property has of a person, as programs of Microsoft write it.
fn person_name(property: &Property) -> Option<&[u8]>
    ensures { option_map (λ b. b.now) result ≡ person_name (property_view property.now) }
{
    let namespace = b"http://ns.microsoft.com/photo/1.2/";
    let field = field_of(property, namespace, b"MP:RegionInfo/MPRI:Regions[")?;
    if field.name == b"/MPReg:PersonDisplayName".as_slice() {
        return text_of(property);
    }
    None
}

/// The names of people in regions, as programs of Microsoft write them, in order.
pub(crate) fn microsoft_names(
    alloc: Global,
    properties: &[Property],
) -> Result<Vec<Vec<u8>>, AllocError>
    ensures { IfOk result (λ v. map (λ t. t.items) v.items
        ≡ microsoft_names (map property_view properties.now)) }
{
    let mut names = Vec::new(alloc);
    for property in properties {
        if let Some(name) = person_name(property) {
            names.push(Vec::from_slice(alloc, name)?)?;
        }
    }
    Ok(names)
}
