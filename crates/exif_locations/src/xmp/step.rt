//! What becomes of a token.

ghost use Rattle.std.specs.Prelude.{◌≡◌, ◌<◌, ◌≤◌, ◌+◌, ◌^◌, false, length, IfOk};
ghost use Rattle.exif_locations.specs.XmpErasing.{content_step, is_deep, less, opens, may_end, step_at, tag_step};

use crate::xmp::fault::Fault;
use crate::xmp::token::{Content, Within, content_token, tag_token};

/// The state of the walk: whether it is within a tag, and within how many elements that are erased.
#[derive(Clone, Copy, Debug)]
pub struct State {
    pub in_tag: bool,
    pub depth: usize,
}

/// A token: the state behind it, its length, and whether it becomes spaces.
#[derive(Clone, Copy, Debug)]
pub struct Step {
    pub state: State,
    pub len: usize,
    pub blank: bool,
}

impl State {
    /// The state at the front of a packet.
    pub fn at_start() -> State
        ensures { result ≡ record { in_tag = false; depth = 0 } }
    {
        State {
            in_tag: false,
            depth: 0,
        }
    }

    /// Whether a packet may end here.
    pub fn may_end(self) -> bool
        ensures { result ≡ may_end self }
    {
        !self.in_tag && self.depth == 0
    }
}

// Whether within an element that is erased.
#[tactic(auto, using(crate::proofs::XmpDepthSteps::deep_is))]
fn is_deep(depth: usize) -> bool
    ensures { result ≡ is_deep depth }
{
    0 < depth
}

// Within one less.
#[tactic(auto, using(crate::proofs::XmpDepthSteps::less_is))]
fn less(depth: usize) -> usize
    ensures { result ≡ less depth }
{
    depth.saturating_sub(1)
}

// An element is opened.
fn opens(in_tag: bool, depth: usize, len: usize, blank: bool) -> Step
    requires { depth + 1 < 2 ^ 64 }
    ensures { result ≡ opens in_tag depth len blank }
{
    let depth = if blank { depth + 1 } else { 0 };
    Step {
        state: State { in_tag, depth },
        len,
        blank,
    }
}

// A token between tags.
fn content_step(depth: usize, kind: Content, len: usize) -> Result<Step, Fault>
    requires { depth + 1 < 2 ^ 64 }
    ensures { result ≡ content_step depth kind len }
{
    let inside = is_deep(depth);
    match kind {
        Content::Text => Ok(Step {
            state: State {
                in_tag: false,
                depth,
            },
            len,
            blank: inside,
        }),
        Content::Opens(location) => Ok(opens(true, depth, len, inside || location)),
        Content::Opened(location) => Ok(opens(false, depth, len, inside || location)),
        Content::Whole(location) => Ok(Step {
            state: State {
                in_tag: false,
                depth,
            },
            len,
            blank: inside || location,
        }),
        Content::Closes(location) => {
            if inside {
                return Ok(Step {
                    state: State {
                        in_tag: false,
                        depth: less(depth),
                    },
                    len,
                    blank: true,
                });
            }
            if location {
                return Err(Fault::Unbalanced);
            }
            Ok(Step {
                state: State {
                    in_tag: false,
                    depth: 0,
                },
                len,
                blank: false,
            })
        }
    }
}

// A token within a tag.
fn tag_step(depth: usize, kind: Within, len: usize) -> Step
    ensures { result ≡ tag_step depth kind len }
{
    let inside = is_deep(depth);
    match kind {
        Within::Space => Step {
            state: State {
                in_tag: true,
                depth,
            },
            len,
            blank: inside,
        },
        Within::Attribute(location) => Step {
            state: State {
                in_tag: true,
                depth,
            },
            len,
            blank: inside || location,
        },
        Within::Ends => Step {
            state: State {
                in_tag: false,
                depth,
            },
            len,
            blank: inside,
        },
        Within::Shuts => Step {
            state: State {
                in_tag: false,
                depth: less(depth),
            },
            len,
            blank: inside,
        },
    }
}

/// The next token, and what becomes of it.
#[tactic(auto, unfolding(crate::specs::XmpErasing::step_at))]
pub fn next_step(state: State, input: &[u8]) -> Result<Step, Fault>
    requires input { 0 < length input.now }
    requires depth { state.depth + 1 < 2 ^ 64 }
    ensures value { result ≡ step_at state input.now }
    ensures some { IfOk result (λ t. 0 < t.len) }
    ensures within { IfOk result (λ t. t.len ≤ length input.now) }
    ensures depth { IfOk result (λ t. t.state.depth ≤ state.depth + 1) }
{
    if state.in_tag {
        let token = tag_token(input)?;
        return Ok(tag_step(state.depth, token.kind, token.len));
    }
    let token = content_token(input)?;
    content_step(state.depth, token.kind, token.len)
}
