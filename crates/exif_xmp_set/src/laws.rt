//! What holds of packets with another text, whatever they are.

ghost use Rattle.exif_xmp_set.specs.Promises.{AddedIsRead, ItemIsRead, LengthStays, ReadBack};

/// What [`exif_xmp::read`] reads of the new packet is what it reads of the old one, with the text
/// of the first property of the namespace and path replaced: the same namespaces, paths, texts,
/// languages and forms in the same order.
pub fn read_back()
    ensures { ReadBack }
{}

/// Where the padding before the trailer of a packet has room for what the value grows by, or the
/// value does not grow, the new packet is as long as the old one.
pub fn length_stays()
    ensures { LengthStays }
{}

/// What [`exif_xmp::read`] reads of a packet with one property more is what it reads of the old one,
/// and behind that the property: a text of this namespace and path, without a language. With one
/// item more it is the item, with the next index, behind the last one of its array; or as the first
/// item of the array behind all, where there was none.
pub fn added_is_read()
    ensures text { AddedIsRead }
    ensures item { ItemIsRead }
{}
