//! What may still change from one version to the next.

pub use exif_writer::Writer;
