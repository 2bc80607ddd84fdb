//! Packets that exiftool 12.57 wrote, before and after it set a text: `exiftool -o NEW
//! -xmp-dc:title-x-default='Sea & sand <3' OLD`, and so on.

use crate::adding::{add_item, add_text};
use crate::fault::{Reason, SetError};
use crate::items::Array;
use crate::set::set_text;
use std::alloc::{AllocError, Global};
use std::test::Fail;

const DUBLIN_CORE: &[u8] = b"http://purl.org/dc/elements/1.1/";

const XMP: &[u8] = b"http://ns.adobe.com/xap/1.0/";

// The parts of a packet, one after the other.
fn joined(alloc: Global, parts: &[&[u8]]) -> Result<Vec<u8>, AllocError> {
    let mut packet = Vec::new(alloc);
    for part in parts {
        packet.extend_from_slice(part)?;
    }
    Ok(packet)
}

// A packet with a title, a keyword and a rating; it has no padding but the end of a line.
fn sidecar(
    alloc: Global,
    title: &[u8],
    keyword: &[u8],
    rating: &[u8],
) -> Result<Vec<u8>, AllocError> {
    let parts: [&[u8]; 7] = [
        b"<?xpacket begin='\xef\xbb\xbf' id='W5M0MpCehiHzreSzNTczkc9d'?>
<x:xmpmeta xmlns:x='adobe:ns:meta/' x:xmptk='Image::ExifTool 12.57'>
<rdf:RDF xmlns:rdf='http://www.w3.org/1999/02/22-rdf-syntax-ns#'>

 <rdf:Description rdf:about=''
  xmlns:dc='http://purl.org/dc/elements/1.1/'>
  <dc:subject>
   <rdf:Bag>
    <rdf:li>one</rdf:li>
    <rdf:li>",
        keyword,
        b"</rdf:li>
   </rdf:Bag>
  </dc:subject>
  <dc:title>
   <rdf:Alt>
    <rdf:li xml:lang='x-default'>",
        title,
        b"</rdf:li>
    <rdf:li xml:lang='de'>Strand</rdf:li>
   </rdf:Alt>
  </dc:title>
 </rdf:Description>

 <rdf:Description rdf:about=''
  xmlns:xmp='http://ns.adobe.com/xap/1.0/'>
  <xmp:Rating>",
        rating,
        b"</xmp:Rating>
 </rdf:Description>
</rdf:RDF>
</x:xmpmeta>
<?xpacket end='w'?>",
    ];
    joined(alloc, &parts)
}

// A packet with a label as an attribute, and more behind that.
fn labelled_with(alloc: Global, label: &[u8], more: &[u8]) -> Result<Vec<u8>, AllocError> {
    let parts: [&[u8]; 5] = [
        b"<?xpacket begin='\xef\xbb\xbf' id='W5M0MpCehiHzreSzNTczkc9d'?>
<x:xmpmeta xmlns:x='adobe:ns:meta/' x:xmptk='Image::ExifTool 12.57'>
<rdf:RDF xmlns:rdf='http://www.w3.org/1999/02/22-rdf-syntax-ns#'>

 <rdf:Description rdf:about=''
  xmlns:xmp='http://ns.adobe.com/xap/1.0/'
  xmp:Label='",
        label,
        b"'/>
",
        more,
        b"</rdf:RDF>
</x:xmpmeta>
<?xpacket end='w'?>",
    ];
    joined(alloc, &parts)
}

// A packet with a label alone.
fn labelled(alloc: Global, label: &[u8]) -> Result<Vec<u8>, AllocError> {
    labelled_with(alloc, label, b"")
}

#[test]
fn elements_as_exiftool_sets_them(rt: HostRuntime) -> Result<(), Fail> {
    let alloc = rt.alloc();
    let old = sidecar(alloc, b"Beach", b"two", b"3")?;
    let titled = set_text(alloc, &old, DUBLIN_CORE, b"dc:title[1]", b"Sea & sand <3")?;
    let wanted = sidecar(alloc, b"Sea &amp; sand &lt;3", b"two", b"3")?;
    assert_eq!(rt; titled.as_slice(), wanted.as_slice());
    let keyed = set_text(alloc, &old, DUBLIN_CORE, b"dc:subject[2]", b"a & b")?;
    let wanted = sidecar(alloc, b"Beach", b"a &amp; b", b"3")?;
    assert_eq!(rt; keyed.as_slice(), wanted.as_slice());
    let rated = set_text(alloc, &old, XMP, b"xmp:Rating", b"5")?;
    let wanted = sidecar(alloc, b"Beach", b"two", b"5")?;
    assert_eq!(rt; rated.as_slice(), wanted.as_slice());
    Ok(())
}

#[test]
fn attributes_as_exiftool_sets_them(rt: HostRuntime) -> Result<(), Fail> {
    let alloc = rt.alloc();
    let old = labelled(alloc, b"Red")?;
    let new = set_text(alloc, &old, XMP, b"xmp:Label", b"It's <b> & c")?;
    let wanted = labelled(alloc, b"It&#39;s &lt;b&gt; &amp; c")?;
    assert_eq!(rt; new.as_slice(), wanted.as_slice());
    Ok(())
}

// exiftool 12.57 reads the rating and the creator of these packets.
#[test]
fn properties_that_are_added(rt: HostRuntime) -> Result<(), Fail> {
    let alloc = rt.alloc();
    let old = labelled(alloc, b"Red")?;
    let new = add_text(alloc, &old, XMP, b"xmp:Rating", b"5")?;
    let wanted = labelled_with(
        alloc,
        b"Red",
        b"<rdf:Description xmlns:rdf='http://www.w3.org/1999/02/22-rdf-syntax-ns#' rdf:about='' \
          xmlns:xmp='http://ns.adobe.com/xap/1.0/' xmp:Rating='5'/>\n",
    )?;
    assert_eq!(rt; new.as_slice(), wanted.as_slice());
    let new = add_item(
        alloc,
        &old,
        DUBLIN_CORE,
        b"dc:creator",
        Array::Seq,
        b"A & B",
    )?;
    let wanted = labelled_with(
        alloc,
        b"Red",
        b"<rdf:Description xmlns:rdf='http://www.w3.org/1999/02/22-rdf-syntax-ns#' rdf:about='' \
          xmlns:dc='http://purl.org/dc/elements/1.1/'><dc:creator><rdf:Seq><rdf:li>A &amp; B</rdf:li>\
          </rdf:Seq></dc:creator></rdf:Description>\n",
    )?;
    assert_eq!(rt; new.as_slice(), wanted.as_slice());
    Ok(())
}

#[test]
fn an_item_behind_the_last_one(rt: HostRuntime) -> Result<(), Fail> {
    let alloc = rt.alloc();
    let old = sidecar(alloc, b"Beach", b"two", b"3")?;
    let new = add_item(
        alloc,
        &old,
        DUBLIN_CORE,
        b"dc:subject",
        Array::Bag,
        b"three",
    )?;
    let wanted = sidecar(alloc, b"Beach", b"two</rdf:li><rdf:li>three", b"3")?;
    assert_eq!(rt; new.as_slice(), wanted.as_slice());
    Ok(())
}

#[test]
fn properties_that_are_not_added(rt: HostRuntime) -> Result<(), Fail> {
    let alloc = rt.alloc();
    let old = sidecar(alloc, b"Beach", b"two", b"3")?;
    let rated = add_text(alloc, &old, XMP, b"xmp:Rating", b"4");
    assert!(rt; matches!(rated, Err(SetError::Refused(Reason::Present))));
    let titled = add_text(alloc, &old, DUBLIN_CORE, b"dc:title", b"Sea");
    assert!(rt; matches!(titled, Err(SetError::Refused(Reason::Present))));
    let empty = b"<r:RDF xmlns:r='http://www.w3.org/1999/02/22-rdf-syntax-ns#'/>";
    let placed = add_text(alloc, empty, XMP, b"xmp:Rating", b"4");
    assert!(rt; matches!(placed, Err(SetError::Refused(Reason::NoPlace))));
    Ok(())
}
