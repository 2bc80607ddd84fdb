//! The XMP packets and the IPTC data of a picture: where its file holds them.
//!
//! [`packets`] lists those of a JPEG, WebP, PNG, JPEG XL, HEIF or AVIF file, and [`content_of`]
//! gives the bytes of one. [`packets_of_fields`] lists those in the values of fields, as TIFF and
//! raw files have them, and [`png_packets`] those in the texts of PNG files. [`joined`] joins the
//! portions of an XMP packet that is too long for a segment of a JPEG file, and [`head_len`] says how
//! much of such a file has to be read.
#![tactic(auto)]

mod field;
mod head;
mod packet;
mod png_packet;
mod portion;
mod raw_profile;
mod text_chunk;

pub use field::{FieldPacket, packets_of_fields};
pub use head::head_len;
pub use packet::{Form, Packet, content_of, packets};
pub use png_packet::{MAX_TEXTS, TextFault, TextPacket, png_packets};
pub use portion::{JoinError, joined};
pub use raw_profile::profile_of;
pub use text_chunk::{Layout, layout_of};
