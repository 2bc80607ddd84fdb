//! What the containers give of streams.

use crate::devices::Slow;
use exif::{Counted, Error, get_exif_attr_from_jpeg};
use exif_containers::isobmff;
use exif_segments::webp;
use std::alloc::Global;
use std::io::Read;

/// The container of a stream.
#[derive(Clone, Copy)]
pub enum Container {
    /// JPEG.
    Jpeg,
    /// WebP.
    WebP,
    /// HEIF or AVIF.
    Heif,
}

// The Exif data in a stream of a container, and the stream as it is left.
fn attr_of<R: Read>(alloc: Global, container: Container, stream: R) -> (Result<Vec<u8>, Error>, R) {
    let mut source = Counted::new(stream);
    let given = match container {
        Container::Jpeg => get_exif_attr_from_jpeg(alloc, &mut source),
        Container::WebP => webp::get_exif_attr(alloc, &mut source),
        Container::Heif => isobmff::get_exif_attr(alloc, &mut source),
    };
    (given, source.into_inner())
}

/// The Exif data in a stream of a container, and what is left of the bytes.
pub fn attr<'a>(
    alloc: Global,
    container: Container,
    bytes: &'a [u8],
) -> (Result<Vec<u8>, Error>, &'a [u8]) {
    attr_of(alloc, container, bytes)
}
