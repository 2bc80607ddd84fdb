//! Packets, read.

ghost use Rattle.std.specs.Prelude.{◌≡◌, map};
ghost use Rattle.exif_xmp.specs.Properties.{property_view};
ghost use Rattle.exif_xmp.specs.Reading.{document, finished, initial_state, is_wide, read, read_all};
ghost use Rattle.exif_xmp.specs.Refusals.{Gives};
ghost use Rattle.exif_xmp.specs.States.{state_view};

use crate::fault::{Fault, ReadError};
use crate::frame::{Frame, Role};
use crate::path::Step;
use crate::property::Property;
use crate::state::{State, refused};
use crate::step::token_step;
use exif_xml::scan::byte_at;
use exif_xml::{Fault as XmlFault, Span, token_at};
use std::alloc::Global;

// Outside all elements.
fn document() -> Frame
    ensures { result ≡ document }
{
    Frame {
        role: Role::Outside,
        tag: Span { start: 0, end: 0 },
        step: Step::Nothing,
        bindings: 0,
        items: 0,
        has_value: false,
        has_text: false,
        start: 0,
        content: 0,
        language: None,
    }
}

fn initial_state(alloc: Global) -> State
    ensures { state_view result ≡ initial_state }
{
    State {
        top: document(),
        below: Vec::new(alloc),
        bindings: Vec::new(alloc),
        properties: Vec::new(alloc),
    }
}

// Whether the first two bytes are those of UTF-16 or UTF-32.
fn is_wide(a: u8, b: u8) -> bool
    ensures { result ≡ is_wide a b }
{
    (a == 254 && b == 255)
        || (a == 255 && b == 254)
        || (a == 0 && b == 60)
        || (a == 60 && b == 0)
        || (a == 0 && b == 0)
}

// The properties, if a packet of `len` bytes may end in this state.
fn finished(state: State, len: usize) -> Result<Vec<Property>, ReadError>
    ensures { Gives (λ v. map property_view v.items) result (finished len (state_view state)) }
{
    if state.below.len() == 0 {
        return Ok(state.properties);
    }
    Err(refused(Fault::Xml(XmlFault::Truncated), len))
}

// The state behind all tokens.
fn read_all(alloc: Global, packet: &[u8]) -> Result<State, ReadError>
    ensures { Gives state_view result (read_all packet.now) }
{
    let mut state = initial_state(alloc);
    let mut here = 0;
    let mut rest = packet;
    for _ in 0..packet.len() {
        if rest.is_empty() {
            return Ok(state);
        }
        let token = match token_at(rest) {
            Ok(token) => token,
            Err(fault) => return Err(refused(Fault::Xml(fault), here)),
        };
        state = match token_step(alloc, packet, state, here, token) {
            Ok(next) => next,
            Err(e) => return Err(e),
        };
        here += token.len;
        let (_, after) = rest.split_at(token.len);
        rest = after;
    }
    if rest.is_empty() {
        return Ok(state);
    }
    Err(refused(Fault::Xml(XmlFault::Truncated), here))
}

/// The properties of an XMP packet, in document order: that of an element is where it ends.
///
/// The packet is the XML of a sidecar file, or of the XMP of a picture, with or without its
/// `<?xpacket` lines, in UTF-8. The extended XMP of a JPEG file (XMP Specification, Part 3,
/// 1.1.3.1) is a packet of its own. What is outside `rdf:RDF` has no properties. Simple values,
/// items of arrays and fields of structures are one property each, as an element or as an
/// attribute; an empty array or structure has none. `rdf:value` is the value of the property that
/// contains it, and the qualifiers beside it are fields.
///
/// What RDF or XML allows and XMP does not is one property of [`Form::Unread`](crate::Form::Unread)
/// each, with its spans and the path of what contains it, and reading goes on behind it: typed
/// nodes, an `rdf:parseType` other than `Resource`, other elements than `rdf:li` in an array, each
/// with the next index, text beside elements.
///
/// A rating is the text of the property with the path `xmp:Rating`, and the keywords are those with
/// the paths `dc:subject[1]`, `dc:subject[2]` and so on.
///
/// Some packets are read that are not well-formed XML. Two tests beside this call report that:
/// [`exif_xml::invalid_character`] the first bytes that are no characters in UTF-8, which are kept
/// in texts as they are, and [`exif_xml::root_fault`] whether there is one root element.
///
/// It takes memory for the answer: the texts of the packet, and for each property a path and a URI
/// within [`MAX_PATH_LEN`](crate::limits::MAX_PATH_LEN) and
/// [`MAX_URI_LEN`](crate::limits::MAX_URI_LEN).
///
/// # Errors
///
/// [`ReadError::Refused`] with the first fault in document order, and its offset.
/// [`ReadError::OutOfMemory`].
#[tactic(auto, unfolding(crate::specs::Reading::read))]
pub fn read(alloc: Global, packet: &[u8]) -> Result<Vec<Property>, ReadError>
    ensures answer { Gives (λ v. map property_view v.items) result (read packet.now) }
{
    if is_wide(byte_at(packet, 0), byte_at(packet, 1)) && 1 < packet.len() {
        return Err(refused(Fault::Encoding, 0));
    }
    let state = read_all(alloc, packet)?;
    finished(state, packet.len())
}
