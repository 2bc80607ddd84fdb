//! The state of reading.

ghost use Rattle.std.specs.Prelude.{◌≡◌, length, map, nat_le};
ghost use Rattle.exif_xmp.specs.declared.fault.ReadError.TheVariants as errors;
ghost use Rattle.exif_xmp.specs.Properties.{property_view};
ghost use Rattle.exif_xmp.specs.Refusals.{Gives};
ghost use Rattle.exif_xmp.specs.States.{state_view, with_property};

use crate::fault::{Fault, ReadError, Refusal};
use crate::frame::Frame;
use crate::limits::MAX_PROPERTIES;
use crate::path::Step;
use crate::property::{Property, Spans, property_of, push_property};
use exif_xml::Binding;
use std::alloc::Global;

/// What is known between two tokens.
#[derive(Drop)]
pub struct State {
    /// The element that is open.
    pub top: Frame,
    /// Those that contain it, the outermost first.
    pub below: Vec<Frame>,
    /// The namespace declarations in scope.
    pub bindings: Vec<Binding>,
    /// The properties so far.
    pub properties: Vec<Property>,
}

/// The refusal of a fault at an offset.
pub fn refused(fault: Fault, offset: usize) -> ReadError
    ensures { result ≡ errors.Refused (record { fault = fault; offset = offset }) }
{
    ReadError::Refused(Refusal { fault, offset })
}

// Whether no property more may be read.
fn is_full(properties: &[Property]) -> bool
    ensures { result ≡ nat_le 65535 (length (map property_view properties.now)) }
{
    MAX_PROPERTIES <= properties.len()
}

/// The state with one more property of the open element, or of an attribute of it, whose step is
/// `last`.
#[tactic(auto, unfolding(crate::specs::States::with_property))]
pub fn with_property(
    alloc: Global,
    packet: &[u8],
    state: State,
    last: Step,
    spans: Spans,
) -> Result<State, ReadError>
    ensures { Gives state_view result (with_property packet.now (state_view state) last spans) }
{
    if is_full(&state.properties) {
        return Err(refused(Fault::TooMany, spans.whole.start));
    }
    let property = property_of(alloc, packet, &state.below, state.top.step, last, spans)?;
    let properties = push_property(state.properties, property)?;
    Ok(State {
        top: state.top,
        below: state.below,
        bindings: state.bindings,
        properties,
    })
}
