//! The data of the thumbnails, which are behind all cards.

ghost use Rattle.std.specs.Prelude.{◌≡◌, ◌++◌, OnOk};
ghost use Rattle.exif_page.specs.Thumbnails.{base64, jpeg_html, thumbnail_html};

use crate::entries::Thumbnail;
use crate::escaping::push_markup;
use base64::engine::general_purpose::STANDARD;
use std::alloc::{AllocError, Global};

// Appends bytes in base64 (RFC 4648, section 4).
#[tactic(auto, unfolding(crate::specs::Thumbnails::base64))]
fn push_base64(alloc: Global, out: &mut Vec<u8>, bytes: &[u8]) -> Result<(), AllocError>
    ensures { OnOk result (out.new.items ≡ out.old.items ++ base64 bytes.now) }
{
    let text = STANDARD.encode(alloc, bytes)?;
    out.extend_from_slice(text.as_bytes())
}

// Appends JPEG data in an inert block.
#[tactic(auto, unfolding(crate::specs::Thumbnails::jpeg_html))]
fn push_jpeg(alloc: Global, out: &mut Vec<u8>, bytes: &[u8]) -> Result<(), AllocError>
    ensures { OnOk result (out.new.items ≡ out.old.items ++ jpeg_html bytes.now) }
{
    push_markup(out, b"<script type=\"text/plain\">")?;
    push_base64(alloc, out, bytes)?;
    push_markup(out, b"</script>\n")
}

// Appends the data of a thumbnail, if there is one.
#[tactic(auto, unfolding(crate::specs::Thumbnails::thumbnail_html))]
pub(crate) fn push_thumbnail(
    alloc: Global,
    out: &mut Vec<u8>,
    thumbnail: Thumbnail,
) -> Result<(), AllocError>
    ensures { OnOk result (out.new.items ≡ out.old.items ++ thumbnail_html thumbnail.entry) }
{
    match thumbnail {
        Thumbnail::Jpeg(bytes) => push_jpeg(alloc, out, bytes),
        Thumbnail::Line(_) => Ok(()),
    }
}
