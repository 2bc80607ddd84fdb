//! The property whose text is set.

ghost use Rattle.std.specs.Prelude.{◌≡◌, map};
ghost use Rattle.exif_xmp.specs.Properties.{property_view};
ghost use Rattle.exif_xmp_set.specs.Found.{found_in, is_named, settable};

use crate::fault::Reason;
use exif_xml::Span;
use exif_xmp::{Form, Property};

/// Where a property is.
#[derive(Clone, Copy)]
pub struct Found {
    /// Its value.
    pub value: Span,
    /// Its element or attribute.
    pub whole: Span,
    /// Whether its value is text.
    pub form: Form,
}

/// Whether a property has this namespace and path.
pub fn is_named(property: &Property, namespace: &[u8], path: &[u8]) -> bool
    ensures { result ≡ is_named (property_view property.now) namespace.now path.now }
{
    property.path.as_slice() == path && property.namespace.as_slice() == namespace
}

// The first property of this namespace and path.
fn found_in(properties: &[Property], namespace: &[u8], path: &[u8]) -> Option<Found>
    ensures { result
        ≡ found_in (map property_view properties.now) namespace.now path.now }
{
    for property in properties {
        if is_named(property, namespace, path) {
            return Some(Found {
                value: property.value,
                whole: property.whole,
                form: property.form,
            });
        }
    }
    None
}

/// The first property of this namespace and path, if its value is text.
pub fn settable(properties: &[Property], namespace: &[u8], path: &[u8]) -> Result<Found, Reason>
    ensures { result
        ≡ settable (map property_view properties.now) namespace.now path.now }
{
    match found_in(properties, namespace, path) {
        Some(found) => match found.form {
            Form::Text => Ok(found),
            Form::Unread => Err(Reason::Unread),
        },
        None => Err(Reason::NoProperty),
    }
}
