//! The usual prefixes of namespaces.

ghost use Rattle.std.specs.Prelude.{◌≡◌};
ghost use Rattle.exif_xml.specs.Prefixes.{usual_prefix, core_prefix, edit_prefix, iptc_prefix, is_rdf, people_prefix, photo_prefix, struct_prefix};

/// Whether a URI is the one of RDF (RDF/XML Syntax Specification, 5.1).
pub fn is_rdf(uri: &[u8]) -> bool
    ensures { result ≡ is_rdf uri.now }
{
    uri == b"http://www.w3.org/1999/02/22-rdf-syntax-ns#".as_slice()
}

#[tactic(auto, unfolding(crate::specs::Prefixes::core_prefix))]
fn core_prefix<'a>(uri: &[u8], own: &'a [u8]) -> &'a [u8]
    ensures { result.now ≡ core_prefix uri.now own.now }
{
    if uri == b"http://purl.org/dc/elements/1.1/".as_slice() {
        return b"dc".as_slice();
    }
    if uri == b"http://ns.adobe.com/xap/1.0/".as_slice() {
        return b"xmp".as_slice();
    }
    if uri == b"http://ns.adobe.com/xap/1.0/rights/".as_slice() {
        return b"xmpRights".as_slice();
    }
    if uri == b"http://ns.adobe.com/xap/1.0/mm/".as_slice() {
        return b"xmpMM".as_slice();
    }
    if uri == b"http://ns.adobe.com/photoshop/1.0/".as_slice() {
        return b"photoshop".as_slice();
    }
    photo_prefix(uri, own)
}

#[tactic(auto, unfolding(crate::specs::Prefixes::photo_prefix))]
fn photo_prefix<'a>(uri: &[u8], own: &'a [u8]) -> &'a [u8]
    ensures { result.now ≡ photo_prefix uri.now own.now }
{
    if uri == b"http://ns.adobe.com/tiff/1.0/".as_slice() {
        return b"tiff".as_slice();
    }
    if uri == b"http://ns.adobe.com/exif/1.0/".as_slice() {
        return b"exif".as_slice();
    }
    if uri == b"http://cipa.jp/exif/1.0/".as_slice() {
        return b"exifEX".as_slice();
    }
    if uri == b"http://ns.adobe.com/exif/1.0/aux/".as_slice() {
        return b"aux".as_slice();
    }
    if uri == b"http://ns.adobe.com/camera-raw-settings/1.0/".as_slice() {
        return b"crs".as_slice();
    }
    iptc_prefix(uri, own)
}

#[tactic(auto, unfolding(crate::specs::Prefixes::iptc_prefix))]
fn iptc_prefix<'a>(uri: &[u8], own: &'a [u8]) -> &'a [u8]
    ensures { result.now ≡ iptc_prefix uri.now own.now }
{
    if uri == b"http://iptc.org/std/Iptc4xmpCore/1.0/xmlns/".as_slice() {
        return b"Iptc4xmpCore".as_slice();
    }
    if uri == b"http://iptc.org/std/Iptc4xmpExt/2008-02-29/".as_slice() {
        return b"Iptc4xmpExt".as_slice();
    }
    if uri == b"http://ns.useplus.org/ldf/xmp/1.0/".as_slice() {
        return b"plus".as_slice();
    }
    if uri == b"http://creativecommons.org/ns#".as_slice() {
        return b"cc".as_slice();
    }
    if uri == b"http://ns.adobe.com/lightroom/1.0/".as_slice() {
        return b"lr".as_slice();
    }
    struct_prefix(uri, own)
}

#[tactic(auto, unfolding(crate::specs::Prefixes::struct_prefix))]
fn struct_prefix<'a>(uri: &[u8], own: &'a [u8]) -> &'a [u8]
    ensures { result.now ≡ struct_prefix uri.now own.now }
{
    if uri == b"http://ns.adobe.com/xap/1.0/sType/ResourceEvent#".as_slice() {
        return b"stEvt".as_slice();
    }
    if uri == b"http://ns.adobe.com/xap/1.0/sType/ResourceRef#".as_slice() {
        return b"stRef".as_slice();
    }
    if uri == b"http://ns.adobe.com/xap/1.0/sType/Dimensions#".as_slice() {
        return b"stDim".as_slice();
    }
    if uri == b"http://ns.adobe.com/xmp/sType/Area#".as_slice() {
        return b"stArea".as_slice();
    }
    if uri == b"http://ns.adobe.com/xmp/1.0/DynamicMedia/".as_slice() {
        return b"xmpDM".as_slice();
    }
    people_prefix(uri, own)
}

#[tactic(auto, unfolding(crate::specs::Prefixes::people_prefix))]
fn people_prefix<'a>(uri: &[u8], own: &'a [u8]) -> &'a [u8]
    ensures { result.now ≡ people_prefix uri.now own.now }
{
    if uri == b"http://www.metadataworkinggroup.com/schemas/regions/".as_slice() {
        return b"mwg-rs".as_slice();
    }
    if uri == b"http://www.metadataworkinggroup.com/schemas/keywords/".as_slice() {
        return b"mwg-kw".as_slice();
    }
    if uri == b"http://ns.microsoft.com/photo/1.2/".as_slice() {
        return b"MP".as_slice();
    }
    if uri == b"http://ns.microsoft.com/photo/1.2/t/RegionInfo#".as_slice() {
        return b"MPRI".as_slice();
    }
    if uri == b"http://ns.microsoft.com/photo/1.2/t/Region#".as_slice() {
        return b"MPReg".as_slice();
    }
    edit_prefix(uri, own)
}

#[tactic(auto, unfolding(crate::specs::Prefixes::edit_prefix))]
fn edit_prefix<'a>(uri: &[u8], own: &'a [u8]) -> &'a [u8]
    ensures { result.now ≡ edit_prefix uri.now own.now }
{
    if uri == b"http://ns.microsoft.com/photo/1.0/".as_slice() {
        return b"MicrosoftPhoto".as_slice();
    }
    if uri == b"http://www.digikam.org/ns/1.0/".as_slice() {
        return b"digiKam".as_slice();
    }
    if uri == b"http://darktable.sf.net/".as_slice() {
        return b"darktable".as_slice();
    }
    if uri == b"http://ns.google.com/photos/1.0/panorama/".as_slice() {
        return b"GPano".as_slice();
    }
    if uri == b"http://ns.adobe.com/pdf/1.3/".as_slice() {
        return b"pdf".as_slice();
    }
    own
}

/// The usual prefix of a namespace of XMP, by its URI, as `dc` for
/// `http://purl.org/dc/elements/1.1/`; `own` for the URI of another namespace.
///
/// It has 30 namespaces: those of the XMP Specification, Parts 1 and 2, of the IPTC and PLUS
/// standards, of the Metadata Working Group, and of programs.
pub fn usual_prefix<'a>(uri: &[u8], own: &'a [u8]) -> &'a [u8]
    ensures { result.now ≡ usual_prefix uri.now own.now }
{
    core_prefix(uri, own)
}
