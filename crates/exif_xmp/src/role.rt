//! Which elements and attributes the RDF of XMP has, and what they mean.

ghost use Rattle.std.specs.Prelude.{◌≡◌};
ghost use Rattle.exif_xmp.specs.Roles.{array_child, child_of, facts_of, frame_role, inside_child, item_role, meaning_named, meaning_of, node_child, outside_child, parsed_role, property_child, rdf_attribute, rdf_child, rdf_term, term_of, unread_child, with_meaning, xml_attribute};

use crate::fault::Fault;
use crate::frame::{Frame, Role};
use crate::limits::MAX_ITEMS;
use crate::path::Step;
use exif_xml::name::qname_of;
use exif_xml::prefix::is_rdf;
use exif_xml::{Attribute, Binding, Name, Span, resolve, slice_of};

/// The elements of RDF that XMP has.
#[derive(Clone, Copy)]
pub enum Term {
    /// `rdf:RDF`.
    Root,
    /// `rdf:Description`.
    Description,
    /// `rdf:Bag`, `rdf:Seq` or `rdf:Alt`.
    Array,
    /// `rdf:li`.
    Item,
    /// `rdf:value`.
    Value,
    /// Any other element, of RDF or not.
    Other,
}

/// An element in another one.
#[derive(Clone, Copy)]
pub struct Child {
    /// What it is.
    pub role: Role,
    /// What it adds to the path.
    pub step: Step,
}

/// What an attribute means.
#[derive(Clone, Copy)]
pub enum Meaning {
    /// Nothing of the properties: a namespace declaration, `rdf:about`, a name without a namespace.
    Ignored,
    /// `xml:lang`.
    Language,
    /// `rdf:resource`: the URI that is the value of the property.
    Resource,
    /// `rdf:parseType`.
    ParseType,
    /// `rdf:value`: the value of a property that has qualifiers too.
    Value,
    /// A property.
    Field(Name),
}

/// What the attributes of an element mean together.
#[derive(Clone, Copy)]
pub struct Facts {
    /// The value of `xml:lang`.
    pub language: Option<Span>,
    /// The value of `rdf:resource`.
    pub resource: Option<Span>,
    /// The value of `rdf:parseType`.
    pub parse_type: Option<Span>,
    /// Whether there are properties among them.
    pub has_fields: bool,
}

// The element of RDF with this local name.
fn rdf_term(local: &[u8]) -> Term
    ensures { result ≡ rdf_term local.now }
{
    if local == b"RDF".as_slice() {
        return Term::Root;
    }
    if local == b"Description".as_slice() {
        return Term::Description;
    }
    if local == b"Bag".as_slice() || local == b"Seq".as_slice() || local == b"Alt".as_slice() {
        return Term::Array;
    }
    if local == b"li".as_slice() {
        return Term::Item;
    }
    if local == b"value".as_slice() {
        return Term::Value;
    }
    Term::Other
}

// The element of RDF with this name.
fn term_of(packet: &[u8], name: Name) -> Term
    ensures { result ≡ term_of packet.now name }
{
    if is_rdf(slice_of(packet, name.uri)) {
        return rdf_term(slice_of(packet, name.local));
    }
    Term::Other
}

// An element outside `rdf:RDF`.
fn outside_child(term: Term) -> Child
    ensures { result ≡ outside_child term }
{
    match term {
        Term::Root => Child {
            role: Role::Rdf,
            step: Step::Nothing,
        },
        Term::Description | Term::Array | Term::Item | Term::Value | Term::Other => Child {
            role: Role::Outside,
            step: Step::Nothing,
        },
    }
}

// An element of a form that XMP does not have.
fn unread_child() -> Child
    ensures { result ≡ unread_child }
{
    Child {
        role: Role::Unread,
        step: Step::Nothing,
    }
}

// An element in one that is not read.
fn inside_child() -> Child
    ensures { result ≡ inside_child }
{
    Child {
        role: Role::Inside,
        step: Step::Nothing,
    }
}

// An element in `rdf:RDF`.
fn rdf_child(term: Term) -> Child
    ensures { result ≡ rdf_child term }
{
    match term {
        Term::Description => Child {
            role: Role::Node,
            step: Step::Nothing,
        },
        Term::Root | Term::Array | Term::Item | Term::Value | Term::Other => unread_child(),
    }
}

// An element in one with properties.
fn node_child(term: Term, name: Name) -> Child
    ensures { result ≡ node_child term name }
{
    match term {
        Term::Value => Child {
            role: Role::Property,
            step: Step::Nothing,
        },
        Term::Other => {
            if name.uri.start == name.uri.end {
                return unread_child();
            }
            Child {
                role: Role::Property,
                step: Step::Named(name),
            }
        }
        Term::Root | Term::Description | Term::Array | Term::Item => unread_child(),
    }
}

// An element in a property.
fn property_child(term: Term, has_value: bool, has_text: bool) -> Child
    ensures { result ≡ property_child term has_value has_text }
{
    if has_text {
        return inside_child();
    }
    if has_value {
        return unread_child();
    }
    match term {
        Term::Description => Child {
            role: Role::Node,
            step: Step::Nothing,
        },
        Term::Array => Child {
            role: Role::Array,
            step: Step::Nothing,
        },
        Term::Root | Term::Item | Term::Value | Term::Other => unread_child(),
    }
}

// What an element in an array is.
fn item_role(term: Term) -> Role
    ensures { result ≡ item_role term }
{
    match term {
        Term::Item => Role::Property,
        Term::Root | Term::Description | Term::Array | Term::Value | Term::Other => Role::Unread,
    }
}

// An element in an array.
fn array_child(term: Term, items: usize) -> Result<Child, Fault>
    ensures { result ≡ array_child term items }
{
    if MAX_ITEMS <= items {
        return Err(Fault::TooMany);
    }
    Ok(Child {
        role: item_role(term),
        step: Step::Item(items + 1),
    })
}

/// The element with this name in the open one, `top`.
pub fn child_of(packet: &[u8], top: Frame, name: Name) -> Result<Child, Fault>
    ensures { result ≡ child_of packet.now top name }
{
    let term = term_of(packet, name);
    match top.role {
        Role::Outside => Ok(outside_child(term)),
        Role::Rdf => Ok(rdf_child(term)),
        Role::Node => Ok(node_child(term, name)),
        Role::Property => Ok(property_child(term, top.has_value, top.has_text)),
        Role::Array => array_child(term, top.items),
        Role::Unread | Role::Inside => Ok(inside_child()),
    }
}

// What an attribute of RDF means.
fn rdf_attribute(local: &[u8], name: Name) -> Meaning
    ensures { result ≡ rdf_attribute local.now name }
{
    if local == b"about".as_slice()
        || local == b"ID".as_slice()
        || local == b"nodeID".as_slice()
        || local == b"datatype".as_slice()
    {
        return Meaning::Ignored;
    }
    if local == b"resource".as_slice() {
        return Meaning::Resource;
    }
    if local == b"parseType".as_slice() {
        return Meaning::ParseType;
    }
    if local == b"value".as_slice() {
        return Meaning::Value;
    }
    Meaning::Field(name)
}

// What an attribute with a namespace means.
fn meaning_named(packet: &[u8], name: Name) -> Meaning
    ensures { result ≡ meaning_named packet.now name }
{
    if is_rdf(slice_of(packet, name.uri)) {
        return rdf_attribute(slice_of(packet, name.local), name);
    }
    Meaning::Field(name)
}

// What an attribute of XML itself means: `xmlns`, `xmlns:..` and `xml:..`.
fn xml_attribute(name: &[u8]) -> Option<Meaning>
    ensures { result ≡ xml_attribute name.now }
{
    if name == b"xmlns".as_slice() || name == b"xml:lang".as_slice() {
        if name == b"xml:lang".as_slice() {
            return Some(Meaning::Language);
        }
        return Some(Meaning::Ignored);
    }
    if name.starts_with(b"xmlns:") {
        return Some(Meaning::Ignored);
    }
    if name.starts_with(b"xml:") {
        return Some(Meaning::Ignored);
    }
    None
}

/// What an attribute means.
#[tactic(auto, unfolding(crate::specs::Roles::meaning_of))]
pub fn meaning_of(
    packet: &[u8],
    bindings: &[Binding],
    attribute: Attribute,
) -> Result<Meaning, Fault>
    ensures { result ≡ meaning_of packet.now bindings.now attribute }
{
    if let Some(meaning) = xml_attribute(slice_of(packet, attribute.name)) {
        return Ok(meaning);
    }
    let qname = qname_of(packet, attribute.name);
    if qname.prefix.start == qname.prefix.end {
        return Ok(Meaning::Ignored);
    }
    let name = resolve(packet, bindings, attribute.name)?;
    Ok(meaning_named(packet, name))
}

// The facts with the meaning of one more attribute.
fn with_meaning(facts: Facts, meaning: Meaning, value: Span) -> Facts
    ensures { result ≡ with_meaning facts meaning value }
{
    match meaning {
        Meaning::Ignored => facts,
        Meaning::Language => Facts {
            language: Some(value),
            ..facts
        },
        Meaning::Resource => Facts {
            resource: Some(value),
            ..facts
        },
        Meaning::ParseType => Facts {
            parse_type: Some(value),
            ..facts
        },
        Meaning::Value | Meaning::Field(_) => Facts {
            has_fields: true,
            ..facts
        },
    }
}

/// What the attributes of an element mean together.
#[tactic(auto, unfolding(crate::specs::Roles::facts_of))]
pub fn facts_of(
    packet: &[u8],
    bindings: &[Binding],
    attributes: &[Attribute],
) -> Result<Facts, Fault>
    ensures { result ≡ facts_of packet.now bindings.now attributes.now }
{
    let mut facts = Facts {
        language: None,
        resource: None,
        parse_type: None,
        has_fields: false,
    };
    for i in 0..attributes.len() {
        let meaning = meaning_of(packet, bindings, attributes[i])?;
        facts = with_meaning(facts, meaning, attributes[i].value);
    }
    Ok(facts)
}

// The role of a property with this `rdf:parseType`.
fn parsed_role(packet: &[u8], parse_type: Option<Span>) -> Role
    ensures { result ≡ parsed_role packet.now parse_type }
{
    match parse_type {
        None => Role::Property,
        Some(value) => {
            if slice_of(packet, value) == b"Resource".as_slice() {
                return Role::Node;
            }
            Role::Unread
        }
    }
}

/// The role of an element with these attributes.
pub fn frame_role(packet: &[u8], role: Role, facts: Facts) -> Role
    ensures { result ≡ frame_role packet.now role facts }
{
    match role {
        Role::Property => parsed_role(packet, facts.parse_type),
        Role::Array => {
            if facts.has_fields {
                return Role::Unread;
            }
            Role::Array
        }
        Role::Outside => Role::Outside,
        Role::Rdf => Role::Rdf,
        Role::Node => Role::Node,
        Role::Unread => Role::Unread,
        Role::Inside => Role::Inside,
    }
}
