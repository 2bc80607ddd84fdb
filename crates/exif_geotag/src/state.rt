//! The state of a walk over the tokens of a GPX file (GPX 1.1, `trkptType`).

ghost use Rattle.std.specs.Prelude.{◌≡◌, ◌+◌, ◌<◌, ◌≤◌, ◌^◌, IfOk};
ghost use Rattle.exif_geotag.specs.States.{at_start, empty_draft, enter, entered, found_of, inside_of, leave, left, with_angle, with_attribute, with_text, with_value};

use crate::element::{Element, quoted_in, text_of};
use crate::error::TrackError;
use crate::number::number_of;
use crate::point::Point;
use crate::text::trimmed;
use crate::time::time_of;
use exif_locations::xmp::Fault;
use exif_locations::xmp::scan::name_len;

/// What is known of the point whose element is open.
#[derive(Clone, Copy, Debug)]
pub(crate) struct Draft {
    pub(crate) time: Option<u64>,
    pub(crate) latitude: Option<u32>,
    pub(crate) longitude: Option<u32>,
    pub(crate) elevation: Option<u32>,
}

/// Where a walk is.
#[derive(Clone, Copy, Debug)]
pub(crate) struct State {
    /// Whether it is within a start tag.
    pub(crate) in_tag: bool,
    /// The element whose start tag came last.
    pub(crate) element: Element,
    /// Whether an element has come.
    pub(crate) rooted: bool,
    /// How many elements are open.
    pub(crate) depth: usize,
    /// How many of them are a point and within it.
    pub(crate) inside: usize,
    /// The point.
    pub(crate) draft: Draft,
}

/// What the end of an element has completed.
#[derive(Clone, Copy, Debug)]
pub(crate) enum Found {
    /// No point.
    Nothing,
    /// A point without a time or a location.
    Skipped,
    /// A point.
    Kept(Point),
}

// A point of which nothing is known.
fn empty_draft() -> Draft
    ensures { result ≡ empty_draft }
{
    Draft {
        time: None,
        latitude: None,
        longitude: None,
        elevation: None,
    }
}

impl State {
    /// The state at the front of a file.
    pub(crate) fn at_start() -> State
        ensures { result ≡ at_start }
    {
        State {
            in_tag: false,
            element: Element::Other,
            rooted: false,
            depth: 0,
            inside: 0,
            draft: empty_draft(),
        }
    }
}

// The point of a draft, if it is complete.
fn found_of(draft: Draft) -> Found
    ensures { result ≡ found_of draft }
{
    match (draft.time, draft.latitude, draft.longitude) {
        (Some(time), Some(latitude), Some(longitude)) => Found::Kept(Point {
            time,
            latitude,
            longitude,
            elevation: draft.elevation,
        }),
        _ => Found::Skipped,
    }
}

// How many of the open elements are a point and within it, when one more opens.
fn inside_of(inside: usize, element: Element) -> usize
    requires { inside + 1 < 2 ^ 64 }
    ensures { result ≡ inside_of inside element }
{
    if 0 < inside {
        return inside + 1;
    }
    match element {
        Element::TrackPoint => 1,
        _ => 0,
    }
}

// An element opens.
fn entered(state: State, in_tag: bool, element: Element) -> State
    requires depth { state.depth + 1 < 2 ^ 64 }
    requires inside { state.inside + 1 < 2 ^ 64 }
    ensures { result ≡ entered state in_tag element }
{
    let inside = inside_of(state.inside, element);
    State {
        in_tag,
        element,
        rooted: true,
        depth: state.depth + 1,
        inside,
        draft: if inside == 1 {
            empty_draft()
        } else {
            state.draft
        },
    }
}

/// An element opens; the outermost one has to be `gpx`.
#[tactic(auto, unfolding(crate::specs::States::enter))]
pub(crate) fn enter(state: State, in_tag: bool, element: Element) -> Result<State, TrackError>
    requires depth { state.depth + 1 < 2 ^ 64 }
    requires inside { state.inside + 1 < 2 ^ 64 }
    ensures answer { result ≡ enter state in_tag element }
    ensures depth { IfOk result (λ t. t.depth ≤ state.depth + 1) }
    ensures inside { IfOk result (λ t. t.inside ≤ state.inside + 1) }
{
    if state.depth == 0 && element != Element::Gpx {
        return Err(TrackError::NotGpx);
    }
    Ok(entered(state, in_tag, element))
}

/// An element ends: the state behind it, and what it has completed.
#[tactic(auto, unfolding(crate::specs::States::leave))]
pub(crate) fn leave(state: State) -> Result<(State, Found), TrackError>
    ensures answer { result ≡ leave state }
    ensures depth { IfOk result (λ l. l.0.depth ≤ state.depth) }
    ensures inside { IfOk result (λ l. l.0.inside ≤ state.inside) }
{
    if state.depth == 0 {
        return Err(TrackError::Xml(Fault::Malformed));
    }
    let found = if state.inside == 1 {
        found_of(state.draft)
    } else {
        Found::Nothing
    };
    let state = State {
        in_tag: false,
        depth: state.depth - 1,
        inside: state.inside.saturating_sub(1),
        ..state
    };
    Ok((state, found))
}

// A point with the value of a child element.
fn with_value(element: Element, draft: Draft, value: &[u8]) -> Draft
    ensures { result ≡ with_value element draft value.now }
{
    match element {
        Element::Time => Draft {
            time: time_of(value),
            ..draft
        },
        Element::Elevation => Draft {
            elevation: number_of(1_000_000_000, 1000, value),
            ..draft
        },
        _ => draft,
    }
}

/// The content of an element begins: that of a child of a point is read.
#[tactic(auto, unfolding(crate::specs::States::with_text))]
pub(crate) fn with_text(state: State, rest: &[u8]) -> State
    ensures answer { result ≡ with_text state rest.now }
    ensures depth { result.depth ≡ state.depth }
    ensures inside { result.inside ≡ state.inside }
{
    if state.inside == 2 {
        return State {
            draft: with_value(state.element, state.draft, trimmed(text_of(rest))),
            ..state
        };
    }
    state
}

// A point with the value of an attribute.
fn with_angle(name: &[u8], draft: Draft, value: &[u8]) -> Draft
    ensures { result ≡ with_angle name.now draft value.now }
{
    if name == b"lat".as_slice() {
        return Draft {
            latitude: number_of(900_000_000, 10_000_000, value),
            ..draft
        };
    }
    if name == b"lon".as_slice() {
        return Draft {
            longitude: number_of(1_800_000_000, 10_000_000, value),
            ..draft
        };
    }
    draft
}

/// An attribute is at the front: that of a point is read.
#[tactic(auto, unfolding(crate::specs::States::with_attribute))]
pub(crate) fn with_attribute(state: State, input: &[u8]) -> State
    ensures answer { result ≡ with_attribute state input.now }
    ensures depth { result.depth ≡ state.depth }
    ensures inside { result.inside ≡ state.inside }
{
    if state.inside == 1 {
        let name = &input[..name_len(input)];
        return State {
            draft: with_angle(name, state.draft, trimmed(quoted_in(input))),
            ..state
        };
    }
    state
}
