//! The properties that attributes are.

ghost use Rattle.std.specs.Prelude.{◌≡◌};
ghost use Rattle.exif_xmp.specs.Fields.{with_attribute, with_attributes, with_fields, with_meant, with_resource};
ghost use Rattle.exif_xmp.specs.Refusals.{Gives};
ghost use Rattle.exif_xmp.specs.States.{state_view};

use crate::fault::ReadError;
use crate::frame::Role;
use crate::path::Step;
use crate::property::{Form, Spans};
use crate::role::{Facts, Meaning, meaning_of};
use crate::state::{State, refused, with_property};
use exif_xml::{Attribute, Span};
use std::alloc::Global;

// The state with the property that an attribute of this meaning is, if it is one.
fn with_meant(
    alloc: Global,
    packet: &[u8],
    state: State,
    attribute: Attribute,
    meaning: Meaning,
) -> Result<State, ReadError>
    ensures { Gives state_view result
        (with_meant packet.now (state_view state) attribute meaning) }
{
    let spans = Spans {
        value: attribute.value,
        whole: Span {
            start: attribute.name.start,
            end: attribute.value.end,
        },
        language: state.top.language,
        form: Form::Text,
    };
    match meaning {
        Meaning::Value => with_property(alloc, packet, state, Step::Nothing, spans),
        Meaning::Field(name) => with_property(alloc, packet, state, Step::Named(name), spans),
        Meaning::Ignored | Meaning::Language | Meaning::Resource | Meaning::ParseType => Ok(state),
    }
}

// The state with the property that an attribute is, if it is one.
#[tactic(auto, unfolding(crate::specs::Fields::with_attribute))]
fn with_attribute(
    alloc: Global,
    packet: &[u8],
    state: State,
    attribute: Attribute,
) -> Result<State, ReadError>
    ensures { Gives state_view result (with_attribute packet.now (state_view state) attribute) }
{
    match meaning_of(packet, &state.bindings, attribute) {
        Ok(meaning) => with_meant(alloc, packet, state, attribute, meaning),
        Err(fault) => Err(refused(fault, attribute.name.start)),
    }
}

// The state with the properties that attributes are.
fn with_attributes(
    alloc: Global,
    packet: &[u8],
    state: State,
    attributes: &[Attribute],
) -> Result<State, ReadError>
    ensures { Gives state_view result
        (with_attributes packet.now (state_view state) attributes.now) }
{
    let mut all = state;
    for i in 0..attributes.len() {
        all = with_attribute(alloc, packet, all, attributes[i])?;
    }
    Ok(all)
}

// The state with the property whose value is `rdf:resource`, if there is one.
fn with_resource(
    alloc: Global,
    packet: &[u8],
    state: State,
    resource: Option<Span>,
) -> Result<State, ReadError>
    ensures { Gives state_view result (with_resource packet.now (state_view state) resource) }
{
    match resource {
        Some(value) => {
            let spans = Spans {
                value,
                whole: Span {
                    start: state.top.start,
                    end: state.top.content,
                },
                language: state.top.language,
                form: Form::Text,
            };
            with_property(alloc, packet, state, Step::Nothing, spans)
        }
        None => Ok(state),
    }
}

/// The state with the properties that the attributes of the open element are.
pub fn with_fields(
    alloc: Global,
    packet: &[u8],
    state: State,
    facts: Facts,
    attributes: &[Attribute],
) -> Result<State, ReadError>
    ensures { Gives state_view result
        (with_fields packet.now (state_view state) facts attributes.now) }
{
    match state.top.role {
        Role::Property => {
            let state = with_resource(alloc, packet, state, facts.resource)?;
            with_attributes(alloc, packet, state, attributes)
        }
        Role::Node => with_attributes(alloc, packet, state, attributes),
        Role::Outside | Role::Rdf | Role::Array | Role::Unread | Role::Inside => Ok(state),
    }
}
