//! The card of a picture.

ghost use Rattle.std.specs.Prelude.{◌≡◌, ◌++◌, OnOk};
ghost use Rattle.exif_page.specs.Cards.{attribute, attributes, card, facts, link, location, opened, picture, place, within};

use crate::entries::{Entry, Thumbnail};
use crate::escaping::{push_between, push_between_if, push_markup};
use crate::paths::file_name;
use std::alloc::AllocError;

// Appends an attribute of a card, where there is a text for it.
#[tactic(auto, unfolding(crate::specs::Cards::attribute))]
fn push_attribute(out: &mut Vec<u8>, name: &[u8], text: Option<&str>) -> Result<(), AllocError>
    ensures { OnOk result (out.new.items
        ≡ out.old.items ++ attribute name.now text.entry) }
{
    let Some(text) = text else {
        return Ok(());
    };
    out.extend_from_slice(b" data-")?;
    out.extend_from_slice(name)?;
    push_between(out, b"=\"", text.as_bytes(), b"\"")
}

// Appends the attributes of a card, which the filters read.
#[tactic(auto, unfolding(crate::specs::Cards::attributes))]
fn push_attributes(out: &mut Vec<u8>, entry: &Entry) -> Result<(), AllocError>
    ensures { OnOk result (out.new.items ≡ out.old.items ++ attributes entry.now) }
{
    push_attribute(out, b"path", Some(entry.path))?;
    push_attribute(out, b"camera", entry.camera)?;
    push_attribute(out, b"orientation", entry.orientation)?;
    push_attribute(out, b"day", entry.day)?;
    push_attribute(out, b"latitude", entry.latitude)?;
    push_attribute(out, b"longitude", entry.longitude)
}

// Appends the place of the thumbnail, which the script fills, or the line that is there.
#[tactic(auto, unfolding(crate::specs::Cards::place))]
fn push_place(out: &mut Vec<u8>, thumbnail: Thumbnail) -> Result<(), AllocError>
    ensures { OnOk result (out.new.items ≡ out.old.items ++ place thumbnail.entry) }
{
    match thumbnail {
        Thumbnail::Jpeg(_) => push_markup(out, b"<span class=\"thumb\"></span>\n"),
        Thumbnail::Line(line) => {
            push_between(out, b"<p class=\"none\">", line.as_bytes(), b"</p>\n")
        }
    }
}

// Appends the thumbnail and the name.
#[tactic(auto, unfolding(crate::specs::Cards::picture))]
fn push_picture(out: &mut Vec<u8>, name: &[u8], thumbnail: Thumbnail) -> Result<(), AllocError>
    ensures { OnOk result (out.new.items ≡ out.old.items ++ picture name.now thumbnail.entry) }
{
    push_place(out, thumbnail)?;
    push_between(out, b"<h3>", name, b"</h3>\n")
}

// Appends both as a link.
#[tactic(auto, unfolding(crate::specs::Cards::within))]
fn push_within(
    out: &mut Vec<u8>,
    link: &[u8],
    name: &[u8],
    thumbnail: Thumbnail,
) -> Result<(), AllocError>
    ensures { OnOk result (out.new.items
        ≡ out.old.items ++ within link.now name.now thumbnail.entry) }
{
    push_between(out, b"<a class=\"open\" href=\"", link, b"\">\n")?;
    push_picture(out, name, thumbnail)?;
    push_markup(out, b"</a>\n")
}

// Appends both, as a link to the file where there is one.
#[tactic(auto, unfolding(crate::specs::Cards::opened))]
fn push_opened(
    out: &mut Vec<u8>,
    link: Option<&str>,
    name: &[u8],
    thumbnail: Thumbnail,
) -> Result<(), AllocError>
    ensures { OnOk result (out.new.items
        ≡ out.old.items ++ opened link.entry name.now thumbnail.entry) }
{
    match link {
        Some(link) => push_within(out, link.as_bytes(), name, thumbnail),
        None => push_picture(out, name, thumbnail),
    }
}

// Appends a location as a text with a geo URI (RFC 5870).
#[tactic(auto, unfolding(crate::specs::Cards::link))]
fn push_link(out: &mut Vec<u8>, latitude: &[u8], longitude: &[u8]) -> Result<(), AllocError>
    ensures { OnOk result (out.new.items
        ≡ out.old.items ++ link latitude.now longitude.now) }
{
    push_between(out, b"<p><a href=\"geo:", latitude, b",")?;
    push_between(out, b"", longitude, b"\">")?;
    push_between(out, b"", latitude, b", ")?;
    push_between(out, b"", longitude, b"</a></p>\n")
}

// Appends a location, where both numbers are there.
#[tactic(auto, unfolding(crate::specs::Cards::location))]
fn push_location(
    out: &mut Vec<u8>,
    latitude: Option<&str>,
    longitude: Option<&str>,
) -> Result<(), AllocError>
    ensures { OnOk result (out.new.items
        ≡ out.old.items ++ location latitude.entry longitude.entry) }
{
    match (latitude, longitude) {
        (Some(latitude), Some(longitude)) => {
            push_link(out, latitude.as_bytes(), longitude.as_bytes())
        }
        _ => Ok(()),
    }
}

// Appends the lines of a card: the path, and what is known of time, camera, exposure and location.
#[tactic(auto, unfolding(crate::specs::Cards::facts))]
fn push_facts(out: &mut Vec<u8>, entry: &Entry) -> Result<(), AllocError>
    ensures { OnOk result (out.new.items ≡ out.old.items ++ facts entry.now) }
{
    push_between(out, b"<p class=\"path\">", entry.path.as_bytes(), b"</p>\n")?;
    push_between_if(out, b"<p>", entry.time, b"</p>\n")?;
    push_between_if(out, b"<p>", entry.camera, b"</p>\n")?;
    push_between_if(out, b"<p>", entry.exposure, b"</p>\n")?;
    push_location(out, entry.latitude, entry.longitude)
}

// Appends the card of a picture.
#[tactic(auto, unfolding(crate::specs::Cards::card))]
pub(crate) fn push_card(out: &mut Vec<u8>, entry: &Entry) -> Result<(), AllocError>
    ensures { OnOk result (out.new.items ≡ out.old.items ++ card entry.now) }
{
    let name = file_name(entry.path.as_bytes());
    out.extend_from_slice(b"<li")?;
    push_attributes(out, entry)?;
    out.extend_from_slice(b">\n")?;
    push_opened(out, entry.link, name, entry.thumbnail)?;
    push_facts(out, entry)?;
    out.extend_from_slice(b"</li>\n")
}
