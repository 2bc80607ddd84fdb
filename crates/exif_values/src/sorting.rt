//! What people sort pictures by.

ghost use Rattle.std.specs.Prelude.{◌≡◌, ◌++◌, map, IfOk};
ghost use Rattle.exif_iptc.specs.Values.{value_view};
ghost use Rattle.exif_values.specs.Sorting.{behind_all, creator_of, date_of, dated, faces_of, joined, keywords_of, label_of, or_dataset, people_of, property_text, rating_from, rating_of, sorting_of, sorting_view, timed, title_of};
ghost use Rattle.exif_values.specs.Values.{values_view};
ghost use Rattle.exif_xmp.specs.Properties.{bytes_view, property_view};

use crate::arrays::{array_of, first_text, preferred_text, texts_of};
use crate::datasets::{dataset_texts, first_dataset};
use crate::regions::{microsoft_names, region_names};
use crate::values::Values;
use exif_iptc::Value;
use exif_xmp::Property;
use std::alloc::{AllocError, Global};

const DUBLIN_CORE: &[u8] = b"http://purl.org/dc/elements/1.1/";

/// What people sort pictures by. Texts are bytes of the packets, which are UTF-8 in valid ones, and
/// are not empty.
///
/// XMP counts before IPTC (Metadata Working Group, Guidelines for Handling Image Metadata, 2.0). Of
/// several packets the first with a property counts.
#[derive(Debug, Drop)]
pub struct Sorting {
    /// From -1, rejected, to 5: `xmp:Rating`, if it is one of these numbers without a fraction.
    pub rating: Option<i8>,
    /// The label, often the name of a color: `xmp:Label`.
    pub label: Option<Vec<u8>>,
    /// `dc:subject`, or else IPTC 2:25.
    pub keywords: Vec<Vec<u8>>,
    /// `dc:title` for every language or else the first one, or else IPTC 2:05.
    pub title: Option<Vec<u8>>,
    /// `dc:description` likewise, or else IPTC 2:120.
    pub description: Option<Vec<u8>>,
    /// `dc:creator`, or else IPTC 2:80; `; ` is between two names.
    pub creator: Option<Vec<u8>>,
    /// `dc:rights` as the title, or else IPTC 2:116.
    pub copyright: Option<Vec<u8>>,
    /// The names of the regions of the Metadata Working Group that are faces, or else the names in
    /// the regions of Microsoft, or else `Iptc4xmpExt:PersonInImage`.
    pub faces: Vec<Vec<u8>>,
    /// When it was taken, as it is written: `exif:DateTimeOriginal`, or else
    /// `photoshop:DateCreated`, or else IPTC 2:55, behind which a space and 2:60 is.
    pub date: Option<Vec<u8>>,
}

// The rating that a text says.
fn rating_from(text: &[u8]) -> Option<i8>
    ensures { result ≡ rating_from text.now }
{
    match text {
        b"-1" => Some(-1),
        b"0" => Some(0),
        b"1" => Some(1),
        b"2" => Some(2),
        b"3" => Some(3),
        b"4" => Some(4),
        b"5" => Some(5),
        _ => None,
    }
}

// The text of a property that is no array.
fn property_text(
    alloc: Global,
    properties: &[Property],
    namespace: &[u8],
    name: &[u8],
) -> Result<Option<Vec<u8>>, AllocError>
    ensures { IfOk result (λ o. bytes_view o
        ≡ property_text namespace.now name.now (map property_view properties.now)) }
{
    first_text(alloc, array_of(properties, namespace, name))
}

// The rating.
fn rating_of(alloc: Global, properties: &[Property]) -> Result<Option<i8>, AllocError>
    ensures { IfOk result (λ r. r ≡ rating_of (map property_view properties.now)) }
{
    let namespace = b"http://ns.adobe.com/xap/1.0/";
    match property_text(alloc, properties, namespace, b"xmp:Rating")? {
        Some(text) => Ok(rating_from(text.as_slice())),
        None => Ok(None),
    }
}

// The label.
fn label_of(alloc: Global, properties: &[Property]) -> Result<Option<Vec<u8>>, AllocError>
    ensures { IfOk result (λ o. bytes_view o ≡ label_of (map property_view properties.now)) }
{
    let namespace = b"http://ns.adobe.com/xap/1.0/";
    property_text(alloc, properties, namespace, b"xmp:Label")
}

// A text, or else that of a dataset.
fn or_dataset(
    alloc: Global,
    text: Option<Vec<u8>>,
    values: &[Value],
    number: u8,
) -> Result<Option<Vec<u8>>, AllocError>
    ensures { IfOk result (λ o. bytes_view o
        ≡ or_dataset (bytes_view text) number (map value_view values.now)) }
{
    match text {
        Some(text) => Ok(Some(text)),
        None => first_dataset(alloc, values, number),
    }
}

// A text of Dublin Core in several languages, or else that of a dataset.
fn title_of(
    alloc: Global,
    values: &Values,
    name: &[u8],
    number: u8,
) -> Result<Option<Vec<u8>>, AllocError>
    ensures { IfOk result (λ o. bytes_view o
        ≡ title_of name.now number (values_view values.now)) }
{
    let items = array_of(values.xmp.as_slice(), DUBLIN_CORE, name);
    let text = preferred_text(alloc, items)?;
    or_dataset(alloc, text, values.iptc.as_slice(), number)
}

// The texts of an array of Dublin Core, or else those of datasets.
fn keywords_of(
    alloc: Global,
    values: &Values,
    name: &[u8],
    number: u8,
) -> Result<Vec<Vec<u8>>, AllocError>
    ensures { IfOk result (λ v. map (λ t. t.items) v.items
        ≡ keywords_of name.now number (values_view values.now)) }
{
    let items = array_of(values.xmp.as_slice(), DUBLIN_CORE, name);
    let texts = texts_of(alloc, items)?;
    if !texts.is_empty() {
        return Ok(texts);
    }
    dataset_texts(alloc, values.iptc.as_slice(), number)
}

// A text with others behind it, each behind `; `.
fn behind_all(mut text: Vec<u8>, others: &[Vec<u8>]) -> Result<Vec<u8>, AllocError>
    ensures { IfOk result (λ v. v.items
        ≡ text.items ++ behind_all (map (λ t. t.items) others.now)) }
{
    for other in others {
        text.extend_from_slice(b"; ")?;
        text.extend_from_slice(other.as_slice())?;
    }
    Ok(text)
}

/// The texts as one, `; ` between two of them; `None` if there is none.
pub fn joined(alloc: Global, texts: &[Vec<u8>]) -> Result<Option<Vec<u8>>, AllocError>
    ensures { IfOk result (λ o. bytes_view o ≡ joined (map (λ t. t.items) texts.now)) }
{
    match texts.split_first() {
        Some((first, others)) => {
            let text = Vec::from_slice(alloc, first.as_slice())?;
            Ok(Some(behind_all(text, others)?))
        }
        None => Ok(None),
    }
}

// The creators as one text.
fn creator_of(alloc: Global, values: &Values) -> Result<Option<Vec<u8>>, AllocError>
    ensures { IfOk result (λ o. bytes_view o ≡ creator_of (values_view values.now)) }
{
    let names = keywords_of(alloc, values, b"dc:creator", 80)?;
    joined(alloc, names.as_slice())
}

// The people who are named in no region.
fn people_of(alloc: Global, properties: &[Property]) -> Result<Vec<Vec<u8>>, AllocError>
    ensures { IfOk result (λ v. map (λ t. t.items) v.items
        ≡ people_of (map property_view properties.now)) }
{
    let namespace = b"http://iptc.org/std/Iptc4xmpExt/2008-02-29/";
    texts_of(
        alloc,
        array_of(properties, namespace, b"Iptc4xmpExt:PersonInImage"),
    )
}

// The names of the people in the picture.
fn faces_of(alloc: Global, properties: &[Property]) -> Result<Vec<Vec<u8>>, AllocError>
    ensures { IfOk result (λ v. map (λ t. t.items) v.items
        ≡ faces_of (map property_view properties.now)) }
{
    let names = region_names(alloc, properties)?;
    if !names.is_empty() {
        return Ok(names);
    }
    let names = microsoft_names(alloc, properties)?;
    if !names.is_empty() {
        return Ok(names);
    }
    people_of(alloc, properties)
}

// A date with a time behind it, if there is one.
fn timed(date: Vec<u8>, time: Option<Vec<u8>>) -> Result<Vec<u8>, AllocError>
    ensures { IfOk result (λ v. v.items ≡ timed date.items (bytes_view time)) }
{
    let mut text = date;
    if let Some(time) = time {
        text.push(b' ')?;
        text.extend_from_slice(time.as_slice())?;
    }
    Ok(text)
}

// The date of IPTC data, with the time.
fn dated(alloc: Global, values: &[Value]) -> Result<Option<Vec<u8>>, AllocError>
    ensures { IfOk result (λ o. bytes_view o ≡ dated (map value_view values.now)) }
{
    match first_dataset(alloc, values, 55)? {
        Some(date) => Ok(Some(timed(date, first_dataset(alloc, values, 60)?)?)),
        None => Ok(None),
    }
}

// When the picture was taken, as it is written.
fn date_of(alloc: Global, values: &Values) -> Result<Option<Vec<u8>>, AllocError>
    ensures { IfOk result (λ o. bytes_view o ≡ date_of (values_view values.now)) }
{
    let properties = values.xmp.as_slice();
    let exif = b"http://ns.adobe.com/exif/1.0/";
    if let Some(date) = property_text(alloc, properties, exif, b"exif:DateTimeOriginal")? {
        return Ok(Some(date));
    }
    let photoshop = b"http://ns.adobe.com/photoshop/1.0/";
    if let Some(date) = property_text(alloc, properties, photoshop, b"photoshop:DateCreated")? {
        return Ok(Some(date));
    }
    dated(alloc, values.iptc.as_slice())
}

/// What people sort a picture with these values by. It takes the memory of the texts.
///
/// # Errors
///
/// Out of memory.
pub fn sorting_of(alloc: Global, values: &Values) -> Result<Sorting, AllocError>
    ensures { IfOk result (λ s. sorting_view s ≡ sorting_of (values_view values.now)) }
{
    let properties = values.xmp.as_slice();
    Ok(Sorting {
        rating: rating_of(alloc, properties)?,
        label: label_of(alloc, properties)?,
        keywords: keywords_of(alloc, values, b"dc:subject", 25)?,
        title: title_of(alloc, values, b"dc:title", 5)?,
        description: title_of(alloc, values, b"dc:description", 120)?,
        creator: creator_of(alloc, values)?,
        copyright: title_of(alloc, values, b"dc:rights", 116)?,
        faces: faces_of(alloc, properties)?,
        date: date_of(alloc, values)?,
    })
}
