//! Character data.

ghost use Rattle.std.specs.Prelude.{◌≡◌, ◌<◌, ◌+◌, ◌^◌};
ghost use Rattle.exif_xmp.specs.Characters.{character_data, is_blank, stray_text, text_top, with_property_text, with_text};
ghost use Rattle.exif_xmp.specs.Refusals.{Gives};
ghost use Rattle.exif_xmp.specs.States.{state_view};

use crate::fault::ReadError;
use crate::frame::{Frame, Role};
use crate::path::Step;
use crate::property::{Form, Spans};
use crate::state::{State, with_property};
use exif_xml::scan::is_space;
use exif_xml::{Span, slice_of};
use std::alloc::Global;

// Whether all bytes are white space.
fn is_blank(bytes: &[u8]) -> bool
    ensures { result ≡ is_blank bytes.now }
{
    for i in 0..bytes.len() {
        if !is_space(bytes[i]) {
            return false;
        }
    }
    true
}

// A property with text, which is all of its value or is beside elements.
fn text_top(top: Frame) -> Frame
    ensures { result ≡ text_top top }
{
    if top.has_value {
        return Frame {
            role: Role::Unread,
            ..top
        };
    }
    Frame {
        has_text: true,
        ..top
    }
}

// The state behind text in a property.
fn with_property_text(state: State) -> State
    ensures { state_view result ≡ with_property_text (state_view state) }
{
    State {
        top: text_top(state.top),
        below: state.below,
        bindings: state.bindings,
        properties: state.properties,
    }
}

// The state behind text that is in no property.
fn stray_text(
    alloc: Global,
    packet: &[u8],
    state: State,
    offset: usize,
    len: usize,
) -> Result<State, ReadError>
    requires { offset + len < 2 ^ 63 }
    ensures { Gives state_view result (stray_text packet.now (state_view state) offset len) }
{
    let whole = Span {
        start: offset,
        end: offset + len,
    };
    let spans = Spans {
        value: whole,
        whole,
        language: state.top.language,
        form: Form::Unread,
    };
    with_property(alloc, packet, state, Step::Nothing, spans)
}

/// The state behind text of `len` bytes at an offset that is more than white space.
pub fn with_text(
    alloc: Global,
    packet: &[u8],
    state: State,
    offset: usize,
    len: usize,
) -> Result<State, ReadError>
    requires { offset + len < 2 ^ 63 }
    ensures { Gives state_view result (with_text packet.now (state_view state) offset len) }
{
    match state.top.role {
        Role::Property => Ok(with_property_text(state)),
        Role::Rdf | Role::Node | Role::Array => stray_text(alloc, packet, state, offset, len),
        Role::Outside | Role::Unread | Role::Inside => Ok(state),
    }
}

/// The state behind character data of `len` bytes at an offset.
pub fn character_data(
    alloc: Global,
    packet: &[u8],
    state: State,
    offset: usize,
    len: usize,
) -> Result<State, ReadError>
    requires { offset + len < 2 ^ 63 }
    ensures { Gives state_view result (character_data packet.now (state_view state) offset len) }
{
    let span = Span {
        start: offset,
        end: offset + len,
    };
    if is_blank(slice_of(packet, span)) {
        return Ok(state);
    }
    with_text(alloc, packet, state, offset, len)
}
