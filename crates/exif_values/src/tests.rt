//! Values of a picture whose packets exiftool 12.57 wrote, as exiftool shows them.

use crate::fault::Cause;
use crate::reading::read;
use crate::sorting::{joined, sorting_of};
use crate::values::Values;
use exif_iptc::Content;
use exif_xmp::Fault as XmpFault;
use std::alloc::{AllocError, Global};
use std::process::Abort;
use std::test::Fail;

// The packet, without its padding.
const PACKET: &[u8] = b"<?xpacket begin='\xef\xbb\xbf' id='W5M0MpCehiHzreSzNTczkc9d'?>
<x:xmpmeta xmlns:x='adobe:ns:meta/' x:xmptk='Image::ExifTool 12.57'>
<rdf:RDF xmlns:rdf='http://www.w3.org/1999/02/22-rdf-syntax-ns#'>

 <rdf:Description rdf:about=''
  xmlns:dc='http://purl.org/dc/elements/1.1/'>
  <dc:subject>
   <rdf:Bag>
    <rdf:li>beach</rdf:li>
    <rdf:li>sea &amp; sand</rdf:li>
   </rdf:Bag>
  </dc:subject>
  <dc:title>
   <rdf:Alt>
    <rdf:li xml:lang='x-default'>Strand</rdf:li>
    <rdf:li xml:lang='de'>Am Strand</rdf:li>
   </rdf:Alt>
  </dc:title>
 </rdf:Description>

 <rdf:Description rdf:about=''
  xmlns:xmp='http://ns.adobe.com/xap/1.0/'>
  <xmp:Rating>4</xmp:Rating>
 </rdf:Description>
</rdf:RDF>
</x:xmpmeta>
<?xpacket end='w'?>";

// The resource of Photoshop with the IPTC data, as exiftool wrote it.
const RESOURCE: &[u8] = b"Photoshop 3.0\x008BIM\x04\x04\0\0\0\0\0\x69\x1c\x01\x5a\0\x03\x1b%G\
\x1c\x01\0\0\x02\0\x04\x1c\x02\x19\0\x05beach\x1c\x02\x19\0\x03sea\x1c\x027\0\x0820240501\
\x1c\x02<\0\x0b123000+0200\x1c\x02P\0\x0cZo\xc3\xab M\xc3\xbcller\x1c\x02Z\0\x05Porto\
\x1c\x02x\0\x04Zo\xc3\xab\x1c\x02\0\0\x02\0\x04\0";

// The chunk of a PNG file in which exiftool wrote the same IPTC data.
const TEXT: &[u8] =
    b"\0\0\0\xb4zTXtRaw profile type iptc\0\0x\x9cENK\x0a\x021\x0c\xdd\xf7\x14s\x84\xe6\xdfY\xbbr\
\xe7\xc2\x0bL;\x16\x04A\xf1\xfe\x0b\xf3\x14\xc6\x84\x94\xf7I\xe8+\xe7\xcb\xf5\xb4\xbc\xde\
\xcfy\x7f\xdc\xca\x82\"jE\x9a\xb2\xae\xbaW\xcd>\xcaW\x1a\x95lK(\xd4\xd94\xc0\xbf\x16\xe7h2\
\xa65\x919\xbb9\xb9\x14o\x87(!\x10\xc1%\x927a\xa99\x9a\xaf\xe5\xfc\x9c\x91N\x17J]R\xcb\xe6\
\x8e\xad\x02\x88\x05\xc3o\xc36\x9fC\xb6\xceU\xf7!}8\xda\x82\xbf\x1b\xc8gV}\x06\x87\xfa\x84\
\x16\x0d\xf9pUp\x06\xe9\x1f\xbb\xd6\xf2\x01\x09\x02:\xfe\xa1|\xd9\x1c";

// What is before an XMP packet in its segment.
const XMP_ID: &[u8] = b"http://ns.adobe.com/xap/1.0/\0";

// The first packet of a long one, with the identifier of the rest.
const LONG: &[u8] = b"<rdf:RDF xmlns:rdf='http://www.w3.org/1999/02/22-rdf-syntax-ns#'>
<rdf:Description xmlns:xmpNote='http://ns.adobe.com/xmp/note/'
 xmpNote:HasExtendedXMP='6D64FBB6A5B22B9C0A2F1E1D9B3C4A5F'/></rdf:RDF>";

// The rest, in two portions.
const REST: &[u8] = b"<rdf:RDF xmlns:rdf='http://www.w3.org/1999/02/22-rdf-syntax-ns#'>
<rdf:Description xmlns:dc='http://purl.org/dc/elements/1.1/' dc:format='image/jpeg'/></rdf:RDF>";

// Adds a segment of this marker to a JPEG stream.
fn add_segment(file: &mut Vec<u8>, marker: u8, content: &[u8]) -> Result<(), AllocError> {
    let len = (content.len() % 60_000) as u16 + 2;
    file.extend_from_slice(&[0xff, marker])?;
    file.extend_from_slice(&len.to_be_bytes())?;
    file.extend_from_slice(content)
}

// Adds an XMP packet.
fn add_packet(alloc: Global, file: &mut Vec<u8>, packet: &[u8]) -> Result<(), AllocError> {
    let mut content = Vec::from_slice(alloc, XMP_ID)?;
    content.extend_from_slice(packet)?;
    add_segment(file, 0xe1, content.as_slice())
}

// Adds a portion of the rest of a packet.
fn add_portion(
    alloc: Global,
    file: &mut Vec<u8>,
    offset: u32,
    portion: &[u8],
) -> Result<(), AllocError> {
    let mut content = Vec::from_slice(alloc, b"http://ns.adobe.com/xmp/extension/\0")?;
    content.extend_from_slice(b"6D64FBB6A5B22B9C0A2F1E1D9B3C4A5F")?;
    content.extend_from_slice(&(REST.len() as u32).to_be_bytes())?;
    content.extend_from_slice(&offset.to_be_bytes())?;
    content.extend_from_slice(portion)?;
    add_segment(file, 0xe1, content.as_slice())
}

// The beginning of a JPEG stream.
fn start(alloc: Global) -> Result<Vec<u8>, AllocError> {
    Vec::from_slice(alloc, &[0xff, 0xd8])
}

// Checks the IPTC values that exiftool wrote.
fn check_iptc(rt: &impl Abort, values: &Values) -> Result<(), Fail> {
    let texts = [
        "beach",
        "sea",
        "2024:05:01",
        "12:30:00+02:00",
        "Zoë Müller",
        "Porto",
        "Zoë",
    ];
    let shown = values
        .iptc
        .iter()
        .filter(|value| value.dataset.record_number == 2);
    for (value, text) in shown.zip(&texts) {
        let Content::Text(found) = &value.content else {
            assert!(rt; false);
            return Ok(());
        };
        assert_eq!(rt; found.as_str(), *text);
    }
    assert_eq!(rt; values.iptc.len(), 10);
    Ok(())
}

#[test]
fn packets_of_exiftool(rt: HostRuntime) -> Result<(), Fail> {
    let alloc = rt.alloc();
    let mut file = start(alloc)?;
    add_packet(alloc, &mut file, PACKET)?;
    add_segment(&mut file, 0xed, RESOURCE)?;
    file.extend_from_slice(&[0xff, 0xd9])?;
    let Some(values) = read(alloc, file.as_slice())? else {
        assert!(rt; false);
        return Ok(());
    };
    let wanted: [(&[u8], &[u8]); 5] = [
        (b"dc:subject[1]", b"beach"),
        (b"dc:subject[2]", b"sea & sand"),
        (b"dc:title[1]", b"Strand"),
        (b"dc:title[2]", b"Am Strand"),
        (b"xmp:Rating", b"4"),
    ];
    assert_eq!(rt; values.xmp.len(), wanted.len());
    for (property, (path, text)) in values.xmp.iter().zip(&wanted) {
        assert_eq!(rt; property.path.as_slice(), *path);
        assert_eq!(rt; property.text.as_slice(), *text);
    }
    check_iptc(&rt, &values)?;
    assert!(rt; values.faults.is_empty());
    Ok(())
}

// Checks a text.
fn check_text(rt: &impl Abort, found: &Option<Vec<u8>>, text: &[u8]) -> Result<(), Fail> {
    let Some(found) = found else {
        assert!(rt; false);
        return Ok(());
    };
    assert_eq!(rt; found.as_slice(), text);
    Ok(())
}

#[test]
fn what_people_sort_by(rt: HostRuntime) -> Result<(), Fail> {
    let alloc = rt.alloc();
    let mut file = start(alloc)?;
    add_packet(alloc, &mut file, PACKET)?;
    add_segment(&mut file, 0xed, RESOURCE)?;
    let Some(values) = read(alloc, file.as_slice())? else {
        assert!(rt; false);
        return Ok(());
    };
    let sorting = sorting_of(alloc, &values)?;
    let keywords = joined(alloc, sorting.keywords.as_slice())?;
    assert_eq!(rt; sorting.rating, Some(4));
    check_text(&rt, &keywords, b"beach; sea & sand")?;
    check_text(&rt, &sorting.title, b"Strand")?;
    check_text(&rt, &sorting.description, b"Zo\xc3\xab")?;
    check_text(&rt, &sorting.creator, b"Zo\xc3\xab M\xc3\xbcller")?;
    check_text(&rt, &sorting.date, b"2024:05:01 12:30:00+02:00")?;
    assert!(rt; sorting.label.is_none() && sorting.copyright.is_none());
    assert!(rt; sorting.faces.is_empty());
    Ok(())
}

#[test]
fn a_long_packet_is_joined(rt: HostRuntime) -> Result<(), Fail> {
    let alloc = rt.alloc();
    let mut file = start(alloc)?;
    add_packet(alloc, &mut file, LONG)?;
    add_portion(alloc, &mut file, 0, &REST[..50])?;
    add_portion(alloc, &mut file, 50, &REST[50..])?;
    let Some(values) = read(alloc, file.as_slice())? else {
        assert!(rt; false);
        return Ok(());
    };
    assert_eq!(rt; values.xmp.len(), 2);
    assert_eq!(rt; values.xmp[1].path.as_slice(), b"dc:format".as_slice());
    assert_eq!(rt; values.xmp[1].text.as_slice(), b"image/jpeg".as_slice());
    assert!(rt; values.faults.is_empty());
    Ok(())
}

#[test]
fn what_is_not_read_is_named(rt: HostRuntime) -> Result<(), Fail> {
    let alloc = rt.alloc();
    let mut file = start(alloc)?;
    add_packet(alloc, &mut file, LONG)?;
    add_portion(alloc, &mut file, 0, &REST[..50])?;
    add_packet(alloc, &mut file, b"<a>")?;
    let Some(values) = read(alloc, file.as_slice())? else {
        assert!(rt; false);
        return Ok(());
    };
    assert_eq!(rt; values.faults.len(), 2);
    assert_eq!(rt; values.faults[0].cause, Cause::Portions(50));
    assert_eq!(rt; values.faults[0].offset, Some(35));
    assert!(rt;
        matches!(values.faults[1].cause, Cause::Xmp(refusal)
        if matches!(refusal.fault, XmpFault::Xml(_)))
    );
    Ok(())
}

#[test]
fn another_format_has_none(rt: HostRuntime) -> Result<(), Fail> {
    let found = read(rt.alloc(), b"MM\0*\0\0\0\x08\0\0\0\0\0\0")?;
    assert!(rt; found.is_none());
    Ok(())
}

#[test]
fn texts_of_a_png_file(rt: HostRuntime) -> Result<(), Fail> {
    let alloc = rt.alloc();
    let mut file = Vec::from_slice(alloc, b"\x89PNG\r\n\x1a\n")?;
    file.extend_from_slice(TEXT)?;
    let Some(values) = read(alloc, file.as_slice())? else {
        assert!(rt; false);
        return Ok(());
    };
    check_iptc(&rt, &values)?;
    assert!(rt; values.xmp.is_empty());
    assert!(rt; values.faults.is_empty());
    Ok(())
}
