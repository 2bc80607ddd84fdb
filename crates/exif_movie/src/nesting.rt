//! Which boxes contain others (ISO/IEC 14496-12:2015, 6.2.3).

ghost use Rattle.std.specs.Prelude.{◌≡◌};
ghost use Rattle.exif_movie.specs.Kinds.{child_container, common_container, kind_at, may_hold_metadata, own_container};

use crate::kind::{Container, Kind};
use crate::leaf::leaf_kind;

// A box of user data or metadata.
fn common_container(name: &[u8]) -> Option<Container>
    ensures { result ≡ common_container name.now }
{
    match name {
        b"udta" => Some(Container::UserData),
        b"meta" => Some(Container::Meta),
        _ => None,
    }
}

// Whether boxes of user data or metadata are looked for in such a box.
fn may_hold_metadata(container: Container) -> bool
    ensures { result ≡ may_hold_metadata container }
{
    !matches!(
        container,
        Container::SampleTable | Container::Meta | Container::ItemList
    )
}

// A box that contains others, if it is in the one that it belongs in.
fn own_container(container: Container, name: &[u8]) -> Option<Container>
    ensures { result ≡ own_container container name.now }
{
    match container {
        Container::File => match name {
            b"moov" => Some(Container::Movie),
            b"moof" => Some(Container::Fragment),
            _ => None,
        },
        Container::Movie => {
            if name == b"trak".as_slice() {
                Some(Container::Track)
            } else {
                None
            }
        }
        Container::Track => {
            if name == b"mdia".as_slice() {
                Some(Container::Media)
            } else {
                None
            }
        }
        Container::Media => {
            if name == b"minf".as_slice() {
                Some(Container::MediaInformation)
            } else {
                None
            }
        }
        Container::MediaInformation => {
            if name == b"stbl".as_slice() {
                Some(Container::SampleTable)
            } else {
                None
            }
        }
        Container::Meta => {
            if name == b"ilst".as_slice() {
                Some(Container::ItemList)
            } else {
                None
            }
        }
        Container::Fragment => {
            if name == b"traf".as_slice() {
                Some(Container::Fragment)
            } else {
                None
            }
        }
        _ => None,
    }
}

// A box that contains others.
fn child_container(container: Container, name: &[u8]) -> Option<Container>
    ensures { result ≡ child_container container name.now }
{
    match own_container(container, name) {
        Some(inner) => Some(inner),
        None => {
            if may_hold_metadata(container) {
                common_container(name)
            } else {
                None
            }
        }
    }
}

/// What a box is, by the box that it is in, its type and its content.
pub fn kind_at(container: Container, name: &[u8], content: &[u8]) -> Kind
    ensures { result ≡ kind_at container name.now content.now }
{
    match child_container(container, name) {
        Some(inner) => Kind::Unopened(inner),
        None => leaf_kind(container, name, content),
    }
}
