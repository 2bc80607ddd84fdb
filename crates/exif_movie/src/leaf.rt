//! Boxes that contain no others, by their types (ISO/IEC 14496-12:2015, clause 8; QuickTime File
//! Format, "Movie Atoms", "User Data Atoms", "Metadata Atoms"; 3GPP TS 26.244, clause 8; XMP
//! Specification, Part 3).

ghost use Rattle.std.specs.Prelude.{◌≡◌};
ghost use Rattle.exif_movie.specs.Kinds.{common_kind, container_kind, fragment_kind, free_kind, handler_kind, information_kind, is_asset_text, is_display_box, is_known_user_data, is_quicktime_text, leaf_kind, media_kind, meta_kind, movie_kind, table_kind, top_kind, track_kind, user_kind, user_subject, uuid_kind};

use crate::bytes::{begins, is_zeros};
use crate::kind::{Container, Kind, Subject};

// The extended type of a `uuid` box with an XMP packet (XMP Specification, Part 3, 1.1.4).
const XMP_UUID: &[u8] = b"\xbe\x7a\xcf\xcb\x97\xa9\x42\xe8\x9c\x71\x99\x94\x91\xe3\xaf\xac";

// A box of free space: all zeros, what a camera recorded, or other bytes.
fn free_kind(content: &[u8]) -> Kind
    ensures { result ≡ free_kind content.now }
{
    if is_zeros(content) {
        Kind::Free
    } else if begins(b"GPS ", content) {
        Kind::Telemetry
    } else {
        Kind::FilledFree
    }
}

// A box with an extended type, which its content begins with.
fn uuid_kind(content: &[u8]) -> Option<Kind>
    ensures { result ≡ uuid_kind content.now }
{
    if begins(XMP_UUID, content) {
        Some(Kind::Xmp)
    } else {
        None
    }
}

// A box of a type that may be anywhere.
fn common_kind(name: &[u8], content: &[u8]) -> Option<Kind>
    ensures { result ≡ common_kind name.now content.now }
{
    match name {
        b"free" | b"skip" | b"wide" => Some(free_kind(content)),
        b"uuid" => uuid_kind(content),
        b"XMP_" => Some(Kind::Xmp),
        b"xml " | b"bxml" => Some(Kind::Xml),
        b"gps " | b"GPMF" => Some(Kind::Telemetry),
        _ => None,
    }
}

// A box of the file.
fn top_kind(name: &[u8]) -> Kind
    ensures { result ≡ top_kind name.now }
{
    match name {
        b"ftyp" | b"styp" | b"pdin" | b"sidx" | b"ssix" | b"mfra" | b"prft" => Kind::Structure,
        b"mdat" | b"imda" => Kind::MediaData,
        _ => Kind::Unknown,
    }
}

// A box of the movie box. Compressed movie data (`cmov`) are not decoded.
fn movie_kind(name: &[u8]) -> Kind
    ensures { result ≡ movie_kind name.now }
{
    match name {
        b"mvhd" => Kind::MovieHeader,
        b"iods" | b"mvex" | b"ctab" | b"clip" => Kind::Structure,
        b"cmov" | b"rmra" => Kind::UnknownInner,
        _ => Kind::Unknown,
    }
}

// A box of a track.
fn track_kind(name: &[u8]) -> Kind
    ensures { result ≡ track_kind name.now }
{
    match name {
        b"tkhd" => Kind::TrackHeader,
        b"edts" | b"tref" | b"tapt" | b"clip" | b"matt" | b"load" | b"txas" | b"trgr" => {
            Kind::Structure
        }
        _ => Kind::Unknown,
    }
}

// A handler box, by the handler type.
fn handler_kind(content: &[u8]) -> Kind
    ensures { result ≡ handler_kind content.now }
{
    if content.len() < 12 {
        return Kind::TimedHandler;
    }
    match &content[8..12] {
        b"vide" | b"soun" | b"auxv" | b"pict" | b"tmcd" | b"hint" | b"clcp" => Kind::Handler,
        _ => Kind::TimedHandler,
    }
}

// A box of the media of a track.
fn media_kind(name: &[u8], content: &[u8]) -> Kind
    ensures { result ≡ media_kind name.now content.now }
{
    match name {
        b"mdhd" => Kind::MediaHeader,
        b"hdlr" => handler_kind(content),
        b"elng" => Kind::Structure,
        _ => Kind::UnknownInner,
    }
}

// A box of the media information.
fn information_kind(name: &[u8]) -> Kind
    ensures { result ≡ information_kind name.now }
{
    match name {
        b"vmhd" | b"smhd" | b"hmhd" | b"nmhd" | b"sthd" | b"gmhd" | b"hdlr" | b"dinf" => {
            Kind::Structure
        }
        _ => Kind::UnknownInner,
    }
}

// A box of the sample table.
fn table_kind(name: &[u8]) -> Kind
    ensures { result ≡ table_kind name.now }
{
    match name {
        b"stsc" => Kind::SampleChunks,
        b"stsz" => Kind::SampleSizes,
        b"stco" => Kind::ChunkOffsets,
        b"co64" => Kind::LongChunkOffsets,
        b"stsd"
        | b"stts"
        | b"ctts"
        | b"cslg"
        | b"stss"
        | b"stsh"
        | b"sdtp"
        | b"sbgp"
        | b"sgpd"
        | b"subs"
        | b"saiz"
        | b"saio"
        | b"padb"
        | b"stdp"
        | b"stps"
        | b"stz2" => Kind::Structure,
        _ => Kind::UnknownInner,
    }
}

/// What a box of user data is about, by its type.
pub fn user_subject(name: &[u8]) -> Subject
    ensures { result ≡ user_subject name.now }
{
    match name {
        b"\xa9xyz" | b"loci" => Subject::Location,
        b"\xa9day" | b"date" => Subject::Date,
        b"\xa9mak" => Subject::Make,
        b"\xa9mod" => Subject::Model,
        b"\xa9swr" | b"\xa9too" => Subject::Software,
        _ => Subject::Other,
    }
}

// Whether a type begins with `©`, as those of QuickTime's texts do.
fn is_quicktime_text(name: &[u8]) -> bool
    ensures { result ≡ is_quicktime_text name.now }
{
    name.len() >= 1 && name[0] == 0xa9
}

// Whether a type is one of the asset information (3GPP TS 26.244, clause 8).
fn is_asset_text(name: &[u8]) -> bool
    ensures { result ≡ is_asset_text name.now }
{
    match name {
        b"loci"
        | b"date"
        | b"titl"
        | b"auth"
        | b"cprt"
        | b"dscp"
        | b"perf"
        | b"gnre"
        | b"albm"
        | b"yrrc"
        | b"rtng"
        | b"clsf"
        | b"kywd" => true,
        _ => false,
    }
}

// Whether a type is one for display, for hints or for selection.
fn is_display_box(name: &[u8]) -> bool
    ensures { result ≡ is_display_box name.now }
{
    match name {
        b"name"
        | b"hnti"
        | b"hinf"
        | b"tsel"
        | b"kind"
        | b"chpl"
        | b"WLOC"
        | b"LOOP"
        | b"SelO"
        | b"AllF" => true,
        _ => false,
    }
}

// Whether a type of user data is known.
fn is_known_user_data(name: &[u8]) -> bool
    ensures { result ≡ is_known_user_data name.now }
{
    is_asset_text(name) || is_display_box(name) || is_quicktime_text(name)
}

// A box of user data. Unknown types are those of camera makers.
fn user_kind(name: &[u8]) -> Kind
    ensures { result ≡ user_kind name.now }
{
    if is_known_user_data(name) {
        Kind::UserData(user_subject(name))
    } else {
        Kind::Telemetry
    }
}

// A box of metadata.
fn meta_kind(name: &[u8]) -> Kind
    ensures { result ≡ meta_kind name.now }
{
    match name {
        b"hdlr" => Kind::Structure,
        b"keys" => Kind::Keys,
        _ => Kind::Unknown,
    }
}

// A box of a fragment.
fn fragment_kind(name: &[u8]) -> Kind
    ensures { result ≡ fragment_kind name.now }
{
    match name {
        b"mfhd"
        | b"tfhd"
        | b"trun"
        | b"tfdt"
        | b"sdtp"
        | b"sbgp"
        | b"sgpd"
        | b"subs"
        | b"saiz"
        | b"saio"
        | b"senc" => Kind::Structure,
        _ => Kind::UnknownInner,
    }
}

// A box that contains no others, by the box that it is in.
fn container_kind(container: Container, name: &[u8], content: &[u8]) -> Kind
    ensures { result ≡ container_kind container name.now content.now }
{
    match container {
        Container::File => top_kind(name),
        Container::Movie => movie_kind(name),
        Container::Track => track_kind(name),
        Container::Media => media_kind(name, content),
        Container::MediaInformation => information_kind(name),
        Container::SampleTable => table_kind(name),
        Container::UserData => user_kind(name),
        Container::Meta => meta_kind(name),
        Container::ItemList => Kind::Item(Subject::Other),
        Container::Fragment => fragment_kind(name),
    }
}

/// What a box is that contains no others, by the box that it is in, its type and its content.
pub fn leaf_kind(container: Container, name: &[u8], content: &[u8]) -> Kind
    ensures { result ≡ leaf_kind container name.now content.now }
{
    match common_kind(name, content) {
        Some(kind) => kind,
        None => container_kind(container, name, content),
    }
}
