//! The property that says that a packet is longer than a segment of a JPEG file.

ghost use Rattle.std.specs.Prelude.{◌≡◌, map, IfOk};
ghost use Rattle.std.specs.Option.{option_map};
ghost use Rattle.exif_values.specs.Extensions.{extension_id, names_extension, names_one};
ghost use Rattle.exif_xmp.specs.Properties.{property_view};

use exif_xmp::Property;
use std::alloc::{AllocError, Global};

// Whether a property is `HasExtendedXMP` (XMP part 3, 1.1.3.1).
fn names_extension(property: &Property) -> bool
    ensures { result ≡ names_extension (property_view property.now) }
{
    property.path.as_slice() == b"xmpNote:HasExtendedXMP".as_slice()
        && property.namespace.as_slice() == b"http://ns.adobe.com/xmp/note/".as_slice()
}

/// The identifier of the portions of the rest of a packet with these properties.
pub fn extension_id(alloc: Global, properties: &[Property]) -> Result<Option<Vec<u8>>, AllocError>
    ensures { IfOk result (λ id. option_map (λ v. v.items) id
        ≡ extension_id (map property_view properties.now)) }
{
    for property in properties {
        if names_extension(property) {
            return Ok(Some(Vec::from_slice(alloc, property.text.as_slice())?));
        }
    }
    Ok(None)
}

/// Whether one of these properties names the rest of a packet.
pub fn names_one(properties: &[Property]) -> bool
    ensures { result ≡ names_one (map property_view properties.now) }
{
    for property in properties {
        if names_extension(property) {
            return true;
        }
    }
    false
}
