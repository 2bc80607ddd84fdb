//! Properties.

ghost use Rattle.std.specs.Prelude.{◌≡◌, ◌++◌, ◌∷◌, [], map, IfOk};
ghost use Rattle.exif_xmp.specs.Properties.{bytes_view, language_of, property_of, property_view, value_text};
ghost use Rattle.exif_xmp.specs.Refusals.{Gives};

use crate::fault::{Fault, ReadError, Refusal};
use crate::frame::Frame;
use crate::limits::{MAX_PATH_LEN, MAX_URI_LEN};
use crate::path::{Step, path_of, root_of};
use exif_xml::{Span, slice_of, text_of};
use std::alloc::{AllocError, Global};

/// What the value of a property is.
#[derive(Clone, Copy, Debug, PartialEq, Eq)]
pub enum Form {
    /// Text.
    Text,
    /// XML of a form that XMP does not have: a typed node, an `rdf:parseType` other than
    /// `Resource`, an element that RDF does not allow there, or text beside elements. It is not
    /// read: [`Property::value`] and [`Property::whole`] are where that element or text is.
    Unread,
}

/// A property of a packet: text, or XML of a form that XMP does not have.
///
/// All names and texts are bytes of the packet, which are UTF-8 in a valid one.
#[derive(Debug, Drop)]
pub struct Property {
    /// The URI of its namespace. For an item of an array or a field of a structure it is that of
    /// the property that contains it.
    pub namespace: Vec<u8>,
    /// Its path: `dc:format`, `dc:subject[2]` for the second item of an array, or
    /// `mwg-rs:Regions/mwg-rs:RegionList[1]/mwg-rs:Name` for a field. Usual namespaces have their
    /// usual prefix, whatever the packet declares (see [`exif_xml::usual_prefix`]); others have
    /// that of the packet.
    pub path: Vec<u8>,
    /// Its text, with references and CDATA sections decoded; empty for [`Form::Unread`].
    pub text: Vec<u8>,
    /// The language of the text: the `xml:lang` of the nearest element that contains it and has one
    /// (XML 1.0, 2.12); `None` where there is none, or where that one is empty.
    pub language: Option<Vec<u8>>,
    /// Where the packet has its value, as it is written.
    pub value: Span,
    /// Where the packet has the element, or the attribute without its closing quote.
    pub whole: Span,
    /// Whether the value is text.
    pub form: Form,
}

/// Where the packet has a property.
#[derive(Clone, Copy)]
pub struct Spans {
    /// Its value.
    pub value: Span,
    /// Its element or attribute.
    pub whole: Span,
    /// Its language.
    pub language: Option<Span>,
    /// Whether its value is text.
    pub form: Form,
}

// The bytes of a span, if there is one.
fn language_of(
    alloc: Global,
    packet: &[u8],
    language: Option<Span>,
) -> Result<Option<Vec<u8>>, AllocError>
    ensures { IfOk result (λ o. bytes_view o ≡ language_of packet.now language) }
{
    match language {
        Some(span) => {
            let bytes = Vec::from_slice(alloc, slice_of(packet, span))?;
            Ok(Some(bytes))
        }
        None => Ok(None),
    }
}

// The text of a value.
fn value_text(alloc: Global, packet: &[u8], spans: Spans) -> Result<Vec<u8>, ReadError>
    ensures { Gives (λ v. v.items) result (value_text packet.now spans) }
{
    match spans.form {
        Form::Text => {
            let text = text_of(alloc, spans.value.start, slice_of(packet, spans.value))?;
            Ok(text)
        }
        Form::Unread => Ok(Vec::new(alloc)),
    }
}

/// The property of open elements: `top` is the step of the innermost one, and `last` that of an
/// attribute.
#[tactic(auto, unfolding(crate::specs::Properties::property_of))]
pub fn property_of(
    alloc: Global,
    packet: &[u8],
    frames: &[Frame],
    top: Step,
    last: Step,
    spans: Spans,
) -> Result<Property, ReadError>
    ensures { Gives property_view result (property_of packet.now frames.now top last spans) }
{
    let path = path_of(alloc, packet, frames, top, last)?;
    let uri = slice_of(packet, root_of(frames, top, last));
    if MAX_PATH_LEN < path.len() || MAX_URI_LEN < uri.len() {
        return Err(ReadError::Refused(Refusal {
            fault: Fault::TooLong,
            offset: spans.whole.start,
        }));
    }
    let text = value_text(alloc, packet, spans)?;
    let namespace = Vec::from_slice(alloc, uri)?;
    let language = language_of(alloc, packet, spans.language)?;
    Ok(Property {
        namespace,
        path,
        text,
        language,
        value: spans.value,
        whole: spans.whole,
        form: spans.form,
    })
}

/// The properties with one more at the end.
pub fn push_property(
    mut properties: Vec<Property>,
    property: Property,
) -> Result<Vec<Property>, AllocError>
    ensures { IfOk result (λ v. map property_view v.items
        ≡ map property_view properties.items ++ property_view property ∷ []) }
{
    properties.push(property)?;
    Ok(properties)
}
