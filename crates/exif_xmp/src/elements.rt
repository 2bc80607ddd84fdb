//! Elements that begin and end.

ghost use Rattle.std.specs.Prelude.{◌≡◌, ◌<◌, ◌+◌, ◌^◌, length, map, Ok};
ghost use Rattle.exif_xmp.specs.Elements.{close_element, close_if_empty, element_of, element_spans, end_tag, enter_element, language_in, open_element, pop_element, push_element, with_child, with_content};
ghost use Rattle.exif_xmp.specs.Properties.{property_view};
ghost use Rattle.exif_xmp.specs.Refusals.{Gives};
ghost use Rattle.exif_xmp.specs.States.{state_view};

use crate::fault::{Fault, ReadError};
use crate::fields::with_fields;
use crate::frame::{Frame, Role};
use crate::limits::{MAX_BINDINGS, MAX_DEPTH};
use crate::path::Step;
use crate::property::{Form, Property, Spans};
use crate::role::{Facts, child_of, facts_of, frame_role};
use crate::state::{State, refused, with_property};
use crate::tag::StartTag;
use exif_xml::{
    Attribute, Binding, Fault as XmlFault, Span, attributes, resolve, slice_of, with_bindings,
};
use std::alloc::Global;

/// An element that begins.
#[derive(Clone, Copy)]
pub struct Element {
    /// Its frame.
    pub frame: Frame,
    /// What its attributes mean.
    pub facts: Facts,
}

// An element with one more child: a property with text is not read.
fn with_child(top: Frame) -> Frame
    ensures { result ≡ with_child top }
{
    match top.role {
        Role::Property => {
            if top.has_text {
                return Frame {
                    role: Role::Unread,
                    ..top
                };
            }
            Frame {
                has_value: true,
                ..top
            }
        }
        Role::Array => Frame {
            items: top.items.saturating_add(1),
            ..top
        },
        Role::Outside | Role::Rdf | Role::Node | Role::Unread | Role::Inside => top,
    }
}

// The state without the open element: the one that contains it is open.
#[tactic(auto, unfolding(crate::specs::Elements::pop_element))]
fn pop_element(state: State, offset: usize) -> Result<State, ReadError>
    ensures { Gives state_view result (pop_element (state_view state) offset) }
{
    let State {
        top,
        mut below,
        mut bindings,
        properties,
    } = state;
    let n = below.len();
    if n == 0 {
        return Err(refused(Fault::Xml(XmlFault::MismatchedTag), offset));
    }
    let last = below[n - 1];
    below.truncate(n - 1);
    bindings.truncate(top.bindings);
    Ok(State {
        top: last,
        below,
        bindings,
        properties,
    })
}

// Where the open element is, whose content ends at an offset and whose end tag at `end`.
fn element_spans(top: Frame, offset: usize, end: usize, form: Form) -> Spans
    ensures { result ≡ element_spans top offset end form }
{
    Spans {
        value: Span {
            start: top.content,
            end: offset,
        },
        whole: Span {
            start: top.start,
            end,
        },
        language: top.language,
        form,
    }
}

// The state with the open element as a property, if it has one value, or is not read. Its content
// ends at an offset, and its end tag ends at `end`.
fn with_content(
    alloc: Global,
    packet: &[u8],
    state: State,
    offset: usize,
    end: usize,
) -> Result<State, ReadError>
    ensures { Gives state_view result (with_content packet.now (state_view state) offset end) }
{
    match state.top.role {
        Role::Property => {
            if state.top.has_value {
                return Ok(state);
            }
            let spans = element_spans(state.top, offset, end, Form::Text);
            with_property(alloc, packet, state, Step::Nothing, spans)
        }
        Role::Unread => {
            let spans = element_spans(state.top, offset, end, Form::Unread);
            with_property(alloc, packet, state, Step::Nothing, spans)
        }
        Role::Outside | Role::Rdf | Role::Node | Role::Array | Role::Inside => Ok(state),
    }
}

// The state behind the open element, whose content ends at an offset and whose end tag at `end`.
#[tactic(auto, unfolding(crate::specs::Elements::close_element))]
fn close_element(
    alloc: Global,
    packet: &[u8],
    state: State,
    offset: usize,
    end: usize,
) -> Result<State, ReadError>
    ensures { Gives state_view result
        (close_element packet.now (state_view state) offset end) }
{
    let state = with_content(alloc, packet, state, offset, end)?;
    pop_element(state, offset)
}

/// The state behind an end tag of `len` bytes at an offset, whose name has `name_len` bytes.
pub fn end_tag(
    alloc: Global,
    packet: &[u8],
    state: State,
    offset: usize,
    name_len: usize,
    len: usize,
) -> Result<State, ReadError>
    requires name { name_len < len }
    requires size { offset + len < 2 ^ 63 }
    ensures { Gives state_view result
        (end_tag packet.now (state_view state) offset name_len len) }
{
    let name = Span {
        start: offset + 2,
        end: offset + 2 + name_len,
    };
    if slice_of(packet, name) == slice_of(packet, state.top.tag) {
        return close_element(alloc, packet, state, offset, offset + len);
    }
    Err(refused(Fault::Xml(XmlFault::MismatchedTag), offset))
}

// The language of an element: its own `xml:lang`, where an empty one means none, or else that of
// the element that contains it.
fn language_in(own: Option<Span>, outer: Option<Span>) -> Option<Span>
    ensures { result ≡ language_in own outer }
{
    match own {
        Some(span) => {
            if span.start == span.end {
                None
            } else {
                Some(span)
            }
        }
        None => outer,
    }
}

// The element of a start tag in the open one, `top`. Outside it `outer` namespace declarations are
// in scope.
#[tactic(auto, unfolding(crate::specs::Elements::element_of))]
fn element_of(
    packet: &[u8],
    top: Frame,
    outer: usize,
    bindings: &[Binding],
    attributes: &[Attribute],
    tag: StartTag,
) -> Result<Element, Fault>
    ensures { result ≡ element_of packet.now top outer bindings.now attributes.now tag }
{
    let name = resolve(packet, bindings, tag.name)?;
    let child = child_of(packet, top, name)?;
    let facts = facts_of(packet, bindings, attributes)?;
    let role = frame_role(packet, child.role, facts);
    Ok(Element {
        frame: Frame {
            role,
            tag: tag.name,
            step: child.step,
            bindings: outer,
            items: 0,
            has_value: facts.has_fields || facts.resource.is_some(),
            has_text: false,
            start: tag.start,
            content: tag.content,
            language: language_in(facts.language, top.language),
        },
        facts,
    })
}

// The state in an element that begins in the open one, `top`.
fn push_element(
    top: Frame,
    below: Vec<Frame>,
    bindings: Vec<Binding>,
    properties: Vec<Property>,
    frame: Frame,
) -> Result<State, ReadError>
    ensures { Gives state_view result (Ok (push_element top below.items bindings.items
        (map property_view properties.items) frame)) }
{
    let mut outer = below;
    outer.push(with_child(top))?;
    Ok(State {
        top: frame,
        below: outer,
        bindings,
        properties,
    })
}

// The state in the element of a start tag with these attributes.
#[tactic(auto, unfolding(crate::specs::Elements::enter_element))]
fn enter_element(
    alloc: Global,
    packet: &[u8],
    state: State,
    attributes: &[Attribute],
    tag: StartTag,
) -> Result<State, ReadError>
    ensures { Gives state_view result
        (enter_element packet.now (state_view state) attributes.now tag) }
{
    let State {
        top,
        below,
        bindings,
        properties,
    } = state;
    let outer = bindings.len();
    let inner = with_bindings(packet, bindings, attributes)?;
    if MAX_BINDINGS < inner.len() {
        return Err(refused(Fault::TooMany, tag.start));
    }
    if MAX_DEPTH <= below.len() {
        return Err(refused(Fault::TooDeep, tag.start));
    }
    let element = match element_of(packet, top, outer, &inner, attributes, tag) {
        Ok(element) => element,
        Err(fault) => return Err(refused(fault, tag.start)),
    };
    let state = push_element(top, below, inner, properties, element.frame)?;
    with_fields(alloc, packet, state, element.facts, attributes)
}

// The state behind an element that ends with its start tag, or else in it.
fn close_if_empty(
    alloc: Global,
    packet: &[u8],
    state: State,
    is_empty: bool,
    content: usize,
) -> Result<State, ReadError>
    ensures { Gives state_view result
        (close_if_empty packet.now (state_view state) is_empty content) }
{
    if is_empty {
        return close_element(alloc, packet, state, content, content);
    }
    Ok(state)
}

/// The state behind a start tag.
#[tactic(auto, unfolding(crate::specs::Elements::open_element))]
pub fn open_element(
    alloc: Global,
    packet: &[u8],
    state: State,
    tag: StartTag,
) -> Result<State, ReadError>
    requires packet { length packet.now < 2 ^ 63 }
    ensures { Gives state_view result (open_element packet.now (state_view state) tag) }
{
    let all = attributes(
        alloc,
        tag.attributes.start,
        slice_of(packet, tag.attributes),
    )?;
    let state = enter_element(alloc, packet, state, &all, tag)?;
    close_if_empty(alloc, packet, state, tag.is_empty, tag.content)
}
