//! What stays of the boxes that describe the pictures of a HEIF file.

ghost use Rattle.std.specs.Prelude.{◌≡◌, ◌<◌, ◌≤◌, length, IfSome};
ghost use Rattle.exif_inventory.specs.BoxHeaders.{head_of};
ghost use Rattle.exif_inventory_heif.specs.Items.{count_width};
ghost use Rattle.exif_blanks.specs.HeifSteps.{aux_kept, box_by, box_step, channels_kept, fields_len, full_content, group_by, group_kept, group_step, handler_rest, is_aux_type, is_coding, is_color, is_group, is_property, is_relation, known_handler_len, list_by, list_step, number_step, property_by, property_kept, property_step};

use crate::bytes::{begun_len, front_of, long};
use crate::config::{config_len, config_step};
use crate::lists::{associations_listed, locations_listed, references_listed};
use crate::obus::obus_config;
use crate::steps::{Place, Step, front, whole};
use exif_inventory::boxes::{Head, head_of, name_of};
use exif_inventory_heif::text_len;

// Whether a property says how a picture is coded.
fn is_coding(name: &[u8]) -> bool
    ensures { result ≡ is_coding name.now }
{
    name == b"avcC".as_slice()
        || name == b"vvcC".as_slice()
        || name == b"evcC".as_slice()
        || name == b"j2kH".as_slice()
        || name == b"jpgC".as_slice()
        || name == b"a1lx".as_slice()
}

// Whether one says what its samples and colours are.
fn is_color(name: &[u8]) -> bool
    ensures { result ≡ is_color name.now }
{
    name == b"colr".as_slice()
        || name == b"cclv".as_slice()
        || name == b"ndwt".as_slice()
        || name == b"reve".as_slice()
        || name == b"uncC".as_slice()
        || name == b"cmpd".as_slice()
        || name == b"cmpC".as_slice()
        || name == b"icef".as_slice()
        || name == b"cpat".as_slice()
}

// Whether one says what it is to another picture, or of the camera where it is one of two.
fn is_relation(name: &[u8]) -> bool
    ensures { result ≡ is_relation name.now }
{
    name == b"rref".as_slice()
        || name == b"iscl".as_slice()
        || name == b"tols".as_slice()
        || name == b"oinf".as_slice()
        || name == b"splz".as_slice()
        || name == b"disi".as_slice()
        || name == b"mskC".as_slice()
        || name == b"cmin".as_slice()
        || name == b"cmex".as_slice()
}

// Whether all of a property stays.
fn is_property(name: &[u8]) -> bool
    ensures { result ≡ is_property name.now }
{
    is_coding(name) || is_color(name) || is_relation(name)
}

// How many bytes of fields a property has that is always as long, behind its header; 0 for others.
fn fields_len(name: &[u8]) -> usize
    ensures value { result ≡ fields_len name.now }
    ensures most { result ≤ 32 }
{
    if name == b"ispe".as_slice() {
        12
    } else if name == b"pasp".as_slice() {
        8
    } else if name == b"clap".as_slice() {
        32
    } else if name == b"irot".as_slice()
        || name == b"imir".as_slice()
        || name == b"a1op".as_slice()
    {
        1
    } else if name == b"lsel".as_slice() {
        2
    } else if name == b"clli".as_slice() {
        4
    } else if name == b"mdcv".as_slice() {
        24
    } else if name == b"amve".as_slice() {
        8
    } else {
        0
    }
}

// How many bytes stay of a list of bits for each channel without flags.
fn channels_kept(bytes: &[u8], head: Head) -> usize
    requires front { head.front ≤ 16 }
    requires within { head.len ≤ length bytes.now }
    ensures { result ≡ channels_kept bytes.now head }
{
    if head.len < head.front + 5 {
        return head.len;
    }
    if bytes[head.front..head.front + 4] == [0, 0, 0, 0] {
        head.front + 5 + usize::from(bytes[head.front + 4])
    } else {
        head.len
    }
}

// Whether a text is one of the types of an auxiliary picture that are known.
fn is_aux_type(text: &[u8]) -> bool
    ensures { result ≡ is_aux_type text.now }
{
    text == b"urn:mpeg:hevc:2015:auxid:1".as_slice()
        || text == b"urn:mpeg:hevc:2015:auxid:2".as_slice()
        || text == b"urn:mpeg:mpegB:cicp:systems:auxiliary:alpha".as_slice()
        || text == b"urn:mpeg:mpegB:cicp:systems:auxiliary:depth".as_slice()
        || text == b"urn:com:apple:photo:2018:aux:portraiteffectsmatte".as_slice()
        || text == b"urn:com:apple:photo:2019:aux:semanticskinmatte".as_slice()
        || text == b"urn:com:apple:photo:2019:aux:semantichairmatte".as_slice()
        || text == b"urn:com:apple:photo:2019:aux:semanticteethmatte".as_slice()
        || text == b"urn:com:apple:photo:2020:aux:semanticglassesmatte".as_slice()
        || text == b"urn:com:apple:photo:2020:aux:semanticskymatte".as_slice()
        || text == b"urn:com:apple:photo:2020:aux:hdrgainmap".as_slice()
}

// What a box holds behind its version and flags.
fn full_content(bytes: &[u8], head: Head) -> &[u8]
    requires front { head.front ≤ 16 }
    requires within { head.len ≤ length bytes.now }
    ensures value { result.now ≡ full_content bytes.now head }
    ensures most { length result.now ≤ length bytes.now }
{
    let whole = &bytes[..head.len];
    &whole[whole.len().min(head.front + 4)..]
}

// How many bytes stay of the type of an auxiliary picture.
fn aux_kept(bytes: &[u8], head: Head) -> usize
    requires front { head.front ≤ 16 }
    requires within { head.len ≤ length bytes.now }
    ensures { result ≡ aux_kept bytes.now head }
{
    let content = full_content(bytes, head);
    let len = text_len(content);
    if is_aux_type(&content[..len]) {
        head.front + 5 + len
    } else {
        head.front + 4
    }
}

// How many bytes of a property stay: all, its header and its fields, or its header alone.
fn property_kept(bytes: &[u8], head: Head) -> usize
    requires least { 8 ≤ length bytes.now }
    requires front { head.front ≤ 16 }
    requires within { head.len ≤ length bytes.now }
    ensures { result ≡ property_kept bytes.now head }
{
    let name = name_of(bytes);
    if name == b"auxC".as_slice() {
        aux_kept(bytes, head)
    } else if name == b"pixi".as_slice() {
        channels_kept(bytes, head)
    } else if is_property(name) {
        head.len
    } else {
        head.front + fields_len(name)
    }
}

// Whether a group of items shows which of them to show, or which belong to two eyes.
fn is_group(name: &[u8]) -> bool
    ensures { result ≡ is_group name.now }
{
    name == b"altr".as_slice() || name == b"ster".as_slice()
}

/// The box at the front of the boxes of properties. What is no box becomes zeros.
pub fn list_step(bytes: &[u8]) -> Step
    ensures { result ≡ list_step bytes.now }
{
    let Some(head) = head_of(bytes) else {
        return front(0, bytes.len(), Place::Rest);
    };
    let name = name_of(bytes);
    if name == b"ipco".as_slice() {
        return whole(head.front, Place::Properties(head.len - head.front));
    }
    if name == b"ipma".as_slice() {
        return associations_listed(bytes, head);
    }
    front(head.front, head.len, Place::Boxes)
}

// The property at the front of these bytes, which are so many at most.
fn property_in(space: usize, bytes: &[u8]) -> Step
    ensures { result ≡ property_by space bytes.now (head_of bytes.now) }
{
    let Some(head) = head_of(bytes) else {
        return front(0, space, Place::Boxes);
    };
    if name_of(bytes) == b"av1C".as_slice() {
        obus_config(space, head)
    } else if config_len(name_of(bytes)) == 0 {
        let next = Place::Properties(space.saturating_sub(head.len));
        front(property_kept(bytes, head), head.len, next)
    } else {
        config_step(space, bytes, head)
    }
}

/// The property at the front, if there is space for one, or the box behind all.
pub fn property_step(space: usize, bytes: &[u8]) -> Step
    ensures { result ≡ property_step space bytes.now }
{
    if space == 0 {
        list_step(bytes)
    } else {
        property_in(space, front_of(space, bytes))
    }
}

// How many bytes of a group stay: of such a one its header, a version and flags, its number, a
// count, and the numbers of so many items; of others the header alone.
fn group_kept(bytes: &[u8], head: Head) -> usize
    requires least { 8 ≤ length bytes.now }
    requires front { head.front ≤ 16 }
    requires within { head.len ≤ length bytes.now }
    ensures { result ≡ group_kept bytes.now head }
{
    if !is_group(name_of(bytes)) || head.len < head.front + 12 {
        return head.front;
    }
    head.front + 12 + 4 * long(&bytes[head.front + 8..]) as usize
}

/// The box at the front of groups. What is no box becomes zeros.
pub fn group_step(bytes: &[u8]) -> Step
    ensures { result ≡ group_step bytes.now }
{
    let Some(head) = head_of(bytes) else {
        return front(0, bytes.len(), Place::Rest);
    };
    front(group_kept(bytes, head), head.len, Place::Groups)
}

// How many bytes the count of the items takes.
fn count_width(version: u8) -> usize
    ensures value { result ≡ count_width version }
    ensures most { result ≤ 4 }
{
    if version == 0 { 2 } else { 4 }
}

// A version and flags, and a number whose width the version says: the count of the items, or the
// number of one.
fn number_step(bytes: &[u8], head: Head, next: Place) -> Step
    requires front { head.front ≤ 16 }
    requires within { head.len ≤ length bytes.now }
    ensures { result ≡ number_step bytes.now head next }
{
    if head.front < head.len {
        whole(head.front + 4 + count_width(bytes[head.front]), next)
    } else {
        whole(bytes.len(), Place::Rest)
    }
}

// How many bytes stay of what a handler has behind its version, flags and type: none, or zeros and a
// name that encoders (FFmpeg, libavif) give every file.
fn handler_kept(bytes: &[u8], head: Head) -> usize
    requires front { head.front ≤ 16 }
    requires within { head.len ≤ length bytes.now }
    ensures value { result ≡ known_handler_len (handler_rest bytes.now head) }
    ensures most { result ≤ 47 }
{
    if head.len < head.front + 12 {
        return 0;
    }
    let rest = &bytes[..head.len][head.front + 12..];
    begun_len(b"\0\0\0\0\0\0\0\0\0\0\0\0PictureHandler\0", rest)
        + begun_len(b"\0\0\0\0\0\0\0\0\0\0\0\0libavif\0", rest)
}

/// A box that describes pictures. Of the handler the name becomes zeros, unless it is a known one, and
/// what is behind the number of the first picture.
pub fn box_step(bytes: &[u8]) -> Step
    ensures { result ≡ box_step bytes.now }
{
    let Some(head) = head_of(bytes) else {
        return whole(bytes.len(), Place::Rest);
    };
    let name = name_of(bytes);
    if name == b"iprp".as_slice() {
        whole(head.front, Place::Boxes)
    } else if name == b"grpl".as_slice() {
        whole(head.front, Place::Groups)
    } else if name == b"iinf".as_slice() {
        number_step(bytes, head, Place::Entries)
    } else if name == b"pitm".as_slice() {
        number_step(bytes, head, Place::Zeros)
    } else if name == b"iref".as_slice() {
        references_listed(bytes, head)
    } else if name == b"iloc".as_slice() {
        locations_listed(bytes, head)
    } else if name == b"hdlr".as_slice() {
        whole(head.front + 12 + handler_kept(bytes, head), Place::Zeros)
    } else {
        whole(bytes.len(), Place::Rest)
    }
}
