//! What a token of a GPX file does.

ghost use Rattle.std.specs.Prelude.{◌≡◌, ◌+◌, ◌<◌, ◌≤◌, ◌^◌, length, IfOk};
ghost use Rattle.exif_geotag.specs.Steps.{content_step, leaves, passes, step_at, tag_step};

use crate::element::element_at;
use crate::error::TrackError;
use crate::state::{Found, State, enter, leave, with_attribute, with_text};
use exif_locations::xmp::token::{Content, Within, content_token, tag_token};

/// A token: the state behind it, what it has completed, and its length.
#[derive(Clone, Copy, Debug)]
pub(crate) struct Step {
    pub(crate) state: State,
    pub(crate) found: Found,
    pub(crate) len: usize,
}

// A token that completes nothing.
fn passes(len: usize, state: State) -> Step
    ensures { result ≡ passes len state }
{
    Step {
        state,
        found: Found::Nothing,
        len,
    }
}

// An element ends.
fn leaves(len: usize, state: State) -> Result<Step, TrackError>
    ensures answer { result ≡ leaves len state }
    ensures len { IfOk result (λ t. t.len ≡ len) }
    ensures depth { IfOk result (λ t. t.state.depth ≤ state.depth) }
    ensures inside { IfOk result (λ t. t.state.inside ≤ state.inside) }
{
    let (state, found) = leave(state)?;
    Ok(Step { state, found, len })
}

// A token between tags, of so many bytes at the front.
#[tactic(auto, unfolding(crate::specs::Steps::content_step))]
fn content_step(state: State, kind: Content, len: usize, input: &[u8]) -> Result<Step, TrackError>
    requires some { 0 < len }
    requires within { len ≤ length input.now }
    requires depth { state.depth + 1 < 2 ^ 64 }
    requires inside { state.inside + 1 < 2 ^ 64 }
    ensures answer { result ≡ content_step state kind len input.now }
    ensures len { IfOk result (λ t. t.len ≡ len) }
    ensures depth { IfOk result (λ t. t.state.depth ≤ state.depth + 1) }
    ensures inside { IfOk result (λ t. t.state.inside ≤ state.inside + 1) }
{
    match kind {
        Content::Text => Ok(passes(len, state)),
        Content::Opens(_) => Ok(passes(len, enter(state, true, element_at(input))?)),
        Content::Opened(_) => {
            let state = enter(state, false, element_at(input))?;
            Ok(passes(len, with_text(state, &input[len..])))
        }
        Content::Whole(_) => leaves(len, enter(state, false, element_at(input))?),
        Content::Closes(_) => leaves(len, state),
    }
}

// A token within a tag, of so many bytes at the front.
#[tactic(auto, unfolding(crate::specs::Steps::tag_step))]
fn tag_step(state: State, kind: Within, len: usize, input: &[u8]) -> Result<Step, TrackError>
    requires { len ≤ length input.now }
    ensures answer { result ≡ tag_step state kind len input.now }
    ensures len { IfOk result (λ t. t.len ≡ len) }
    ensures depth { IfOk result (λ t. t.state.depth ≤ state.depth + 1) }
    ensures inside { IfOk result (λ t. t.state.inside ≤ state.inside + 1) }
{
    match kind {
        Within::Space => Ok(passes(len, state)),
        Within::Attribute(_) => Ok(passes(len, with_attribute(state, input))),
        Within::Ends => {
            let state = State {
                in_tag: false,
                ..state
            };
            Ok(passes(len, with_text(state, &input[len..])))
        }
        Within::Shuts => leaves(len, state),
    }
}

/// The token at the front, and what it does.
#[tactic(auto, unfolding(crate::specs::Steps::step_at))]
pub(crate) fn next_step(state: State, input: &[u8]) -> Result<Step, TrackError>
    requires input { 0 < length input.now }
    requires depth { state.depth + 1 < 2 ^ 64 }
    requires inside { state.inside + 1 < 2 ^ 64 }
    ensures answer { result ≡ step_at state input.now }
    ensures some { IfOk result (λ t. 0 < t.len) }
    ensures within { IfOk result (λ t. t.len ≤ length input.now) }
    ensures depth { IfOk result (λ t. t.state.depth ≤ state.depth + 1) }
    ensures inside { IfOk result (λ t. t.state.inside ≤ state.inside + 1) }
{
    if state.in_tag {
        return match tag_token(input) {
            Ok(token) => tag_step(state, token.kind, token.len, input),
            Err(fault) => Err(TrackError::Xml(fault)),
        };
    }
    match content_token(input) {
        Ok(token) => content_step(state, token.kind, token.len, input),
        Err(fault) => Err(TrackError::Xml(fault)),
    }
}
