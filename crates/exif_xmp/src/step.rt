//! What one token adds.

ghost use Rattle.std.specs.Prelude.{◌≡◌, ◌<◌, ◌+◌, ◌^◌, length};
ghost use Rattle.exif_xml.specs.Tokens.{name_len};
ghost use Rattle.exif_xmp.specs.Reading.{token_step};
ghost use Rattle.exif_xmp.specs.Refusals.{Gives};
ghost use Rattle.exif_xmp.specs.States.{state_view};

use crate::characters::{character_data, with_text};
use crate::elements::{end_tag, open_element};
use crate::fault::ReadError;
use crate::state::State;
use crate::tag::start_tag_at;
use exif_xml::{Kind, Token};
use std::alloc::Global;

/// The state behind a token at an offset.
pub fn token_step(
    alloc: Global,
    packet: &[u8],
    state: State,
    offset: usize,
    token: Token,
) -> Result<State, ReadError>
    requires packet { length packet.now < 2 ^ 63 }
    requires name { name_len token.kind < token.len }
    requires size { offset + token.len < 2 ^ 63 }
    ensures { Gives state_view result (token_step packet.now (state_view state) offset token) }
{
    match token.kind {
        Kind::Text => character_data(alloc, packet, state, offset, token.len),
        Kind::Cdata => with_text(alloc, packet, state, offset, token.len),
        Kind::Ignored => Ok(state),
        Kind::Start(n, is_empty) => {
            let tag = start_tag_at(offset, n, is_empty, token.len);
            open_element(alloc, packet, state, tag)
        }
        Kind::End(n) => end_tag(alloc, packet, state, offset, n, token.len),
    }
}
