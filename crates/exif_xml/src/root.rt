//! The root element.

ghost use Rattle.std.specs.Prelude.{◌≡◌, ◌<◌, ◌≤◌, ◌+◌, ◌^◌, length, IfOk};
ghost use Rattle.exif_xml.specs.Roots.{nested_at, nesting_after, nesting_of, root_fault, start_nesting};

use crate::fault::{Fault, Refusal};
use crate::scan::space_len;
use crate::token::{Kind, token_at};

// How many elements are open, and whether there was one.
#[derive(Clone, Copy)]
struct Nesting {
    depth: usize,
    has_root: bool,
}

// A token: how many bytes it has, and the nesting behind it.
#[derive(Clone, Copy)]
struct Nested {
    len: usize,
    nesting: Nesting,
}

// The nesting behind a start tag.
fn start_nesting(nesting: Nesting, is_empty: bool) -> Nesting
    requires { nesting.depth < 2 ^ 63 }
    ensures value { result ≡ start_nesting nesting is_empty }
    ensures deep { result.depth ≤ nesting.depth + 1 }
{
    if is_empty {
        return Nesting {
            depth: nesting.depth,
            has_root: true,
        };
    }
    Nesting {
        depth: nesting.depth + 1,
        has_root: true,
    }
}

// The nesting behind a token, unless it is not allowed there.
fn nesting_after(nesting: Nesting, kind: Kind, is_blank: bool) -> Result<Nesting, Fault>
    requires { nesting.depth < 2 ^ 63 }
    ensures value { result ≡ nesting_after nesting kind is_blank }
    ensures deep { IfOk result (λ n. n.depth ≤ nesting.depth + 1) }
{
    match kind {
        Kind::Ignored => Ok(nesting),
        Kind::Text => {
            if nesting.depth == 0 && !is_blank {
                return Err(Fault::Malformed);
            }
            Ok(nesting)
        }
        Kind::Cdata => {
            if nesting.depth == 0 {
                return Err(Fault::Malformed);
            }
            Ok(nesting)
        }
        Kind::Start(_, is_empty) => {
            if nesting.depth == 0 && nesting.has_root {
                return Err(Fault::Malformed);
            }
            Ok(start_nesting(nesting, is_empty))
        }
        Kind::End(_) => {
            if nesting.depth == 0 {
                return Err(Fault::MismatchedTag);
            }
            Ok(Nesting {
                depth: nesting.depth - 1,
                has_root: nesting.has_root,
            })
        }
    }
}

// The token at the beginning.
#[tactic(auto, unfolding(crate::specs::Roots::nested_at))]
fn nested_at(nesting: Nesting, input: &[u8]) -> Result<Nested, Fault>
    requires some { 0 < length input.now }
    requires size { nesting.depth < 2 ^ 63 }
    ensures value { result ≡ nested_at nesting input.now }
    ensures within { IfOk result (λ x. x.len ≤ length input.now) }
    ensures deep { IfOk result (λ x. x.nesting.depth ≤ nesting.depth + x.len) }
{
    let token = token_at(input)?;
    let is_blank = space_len(input) == token.len;
    let next = nesting_after(nesting, token.kind, is_blank)?;
    Ok(Nested {
        len: token.len,
        nesting: next,
    })
}

// The nesting behind all tokens.
fn nesting_of(document: &[u8]) -> Result<Nesting, Refusal>
    ensures { result ≡ nesting_of document.now }
{
    let mut nesting = Nesting {
        depth: 0,
        has_root: false,
    };
    let mut here = 0;
    let mut rest = document;
    for _ in 0..document.len() {
        if rest.is_empty() {
            return Ok(nesting);
        }
        let next = match nested_at(nesting, rest) {
            Ok(next) => next,
            Err(fault) => {
                return Err(Refusal {
                    fault,
                    offset: here,
                });
            }
        };
        nesting = next.nesting;
        here += next.len;
        let (_, after) = rest.split_at(next.len);
        rest = after;
    }
    if rest.is_empty() {
        return Ok(nesting);
    }
    Err(Refusal {
        fault: Fault::Truncated,
        offset: here,
    })
}

/// Why a document is not one root element, with only white space, comments and processing
/// instructions outside it (XML 1.0, 2.1); `None` where it is.
///
/// It is [`Fault::Malformed`] at the offset of a second root element or of text outside the root,
/// [`Fault::MismatchedTag`] for an end tag outside all elements, [`Fault::Truncated`] at the end
/// where an element is open or there is none, or the refusal of the first token that
/// [`token_at`] refuses. Names of end tags are not compared with those of start tags. It needs no
/// memory.
pub fn root_fault(document: &[u8]) -> Option<Refusal>
    ensures { result ≡ root_fault document.now }
{
    match nesting_of(document) {
        Ok(nesting) => {
            if nesting.has_root && nesting.depth == 0 {
                return None;
            }
            Some(Refusal {
                fault: Fault::Truncated,
                offset: document.len(),
            })
        }
        Err(refusal) => Some(refusal),
    }
}
