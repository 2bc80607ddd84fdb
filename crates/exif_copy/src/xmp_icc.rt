//! XMP packets and colour profiles: taken out of one picture, and put into another one in place of
//! its own.
//!
//! [`xmp_of`] and [`profile_of`] take them out of a file. [`with_xmp`] and [`with_profile`] put
//! them into one: a packet into a JPEG, PNG, WebP or JPEG XL file, and a profile into a JPEG, PNG
//! or WebP file.

mod found;
mod parts;

pub use exif_blocks::{Container, Profile, Xmp, with_profile, with_xmp};
pub use found::{profile_of, xmp_of};
