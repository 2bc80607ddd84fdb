//! Elements that are open.

use crate::path::Step;
use exif_xml::Span;

/// What an element is in the RDF of a packet (XMP Specification, Part 1, 7).
#[derive(Clone, Copy)]
pub enum Role {
    /// Outside `rdf:RDF`.
    Outside,
    /// `rdf:RDF`.
    Rdf,
    /// An element with properties: `rdf:Description`, or a property with
    /// `rdf:parseType="Resource"`.
    Node,
    /// A property, or an item of an array.
    Property,
    /// `rdf:Bag`, `rdf:Seq` or `rdf:Alt`.
    Array,
    /// An element of a form that XMP does not have: its content is not read.
    Unread,
    /// An element in one that is not read.
    Inside,
}

/// An element that is open.
#[derive(Clone, Copy)]
pub struct Frame {
    /// What it is.
    pub role: Role,
    /// Its name as it is written.
    pub tag: Span,
    /// What it adds to the path of the properties in it.
    pub step: Step,
    /// How many namespace declarations are in scope outside it.
    pub bindings: usize,
    /// How many items it has so far.
    pub items: usize,
    /// Whether it has a value that is not text.
    pub has_value: bool,
    /// Whether it has text.
    pub has_text: bool,
    /// The offset of its start tag.
    pub start: usize,
    /// The offset of its content, behind its start tag.
    pub content: usize,
    /// The language of its text, from its own `xml:lang` or that of an element that contains it.
    pub language: Option<Span>,
}
