//! What a box is, by its name and its content (ISO/IEC 14496-12, 4.2; ISO/IEC 23008-12, 10.2).

ghost use Rattle.std.specs.Prelude.{◌≡◌};
ghost use Rattle.exif_inventory_heif.specs.Roles.{begins, child_name, child_role, common_role, free_kind, is_zeros, same_role, top_name, top_role, uuid_kind};

use exif_inventory::Kind;

// The type of a box with content credentials.
const CREDENTIALS: &[u8] = b"\xd8\xfe\xc3\xd6\x1b\x0e\x48\x3c\x92\x97\x58\x28\x87\x7e\xc4\x81";
// The type of a box with an XMP packet.
const XMP: &[u8] = b"\xbe\x7a\xcf\xcb\x97\xa9\x42\xe8\x9c\x71\x99\x94\x91\xe3\xaf\xac";

/// What a span of a file is, before its items are known.
#[derive(Clone, Copy, Debug)]
pub enum Role {
    /// This, whatever the items are.
    Known(Kind),
    /// The header of `meta`, or a child of it that describes the picture.
    Meta,
    /// The list of the items.
    ItemInfo,
    /// Where the items' data are.
    ItemLocation,
    /// Data of items beside the lists.
    ItemData,
    /// Data of items, or of tracks.
    MediaData,
    /// The tracks of a film.
    Movie,
}

/// Whether a role is that of a table, of the items' data in `meta`, or of a film, as wanted.
pub fn same_role(wanted: Role, role: Role) -> bool
    ensures { result ≡ same_role wanted role }
{
    match wanted {
        Role::ItemInfo => matches!(role, Role::ItemInfo),
        Role::ItemLocation => matches!(role, Role::ItemLocation),
        Role::ItemData => matches!(role, Role::ItemData),
        Role::Movie => matches!(role, Role::Movie),
        _ => false,
    }
}

/// Whether all bytes are zero.
pub fn is_zeros(bytes: &[u8]) -> bool
    ensures { result ≡ is_zeros bytes.now }
{
    for b in bytes {
        if *b != 0 {
            return false;
        }
    }
    true
}

// What a box of free space is: nothing but zeros, or whatever was left there.
fn free_kind(content: &[u8]) -> Kind
    ensures { result ≡ free_kind content.now }
{
    if is_zeros(content) {
        Kind::Picture
    } else {
        Kind::Unknown
    }
}

// Whether a content begins with a name.
fn begins(name: &[u8], content: &[u8]) -> bool
    ensures { result ≡ begins name.now content.now }
{
    content.len() >= name.len() && content[..name.len()] == name[..]
}

// What a box of a type of its own is, by the 16 bytes that name it.
fn uuid_kind(content: &[u8]) -> Kind
    ensures { result ≡ uuid_kind content.now }
{
    if begins(CREDENTIALS, content) {
        Kind::ContentCredentials
    } else if begins(XMP, content) {
        Kind::Xmp
    } else {
        Kind::Unknown
    }
}

// What a box is that may be anywhere.
fn common_role(name: &[u8], content: &[u8]) -> Role
    ensures { result ≡ common_role name.now content.now }
{
    match name {
        b"free" | b"skip" => Role::Known(free_kind(content)),
        b"uuid" => Role::Known(uuid_kind(content)),
        b"jumb" => Role::Known(Kind::ContentCredentials),
        _ => Role::Known(Kind::Unknown),
    }
}

// What a box of a file is, where a child of `meta` of its name is something else.
fn top_name(name: &[u8]) -> Option<Role>
    ensures { result ≡ top_name name.now }
{
    match name {
        b"ftyp" | b"styp" => Some(Role::Known(Kind::Picture)),
        b"mdat" | b"imda" => Some(Role::MediaData),
        b"moov" | b"moof" => Some(Role::Movie),
        _ => None,
    }
}

// What a child of `meta` is, where a box of the file of its name is something else.
fn child_name(name: &[u8]) -> Option<Role>
    ensures { result ≡ child_name name.now }
{
    match name {
        b"hdlr" | b"pitm" | b"iref" | b"iprp" | b"ipro" | b"grpl" | b"dinf" => Some(Role::Meta),
        b"iinf" => Some(Role::ItemInfo),
        b"iloc" => Some(Role::ItemLocation),
        b"idat" => Some(Role::ItemData),
        _ => None,
    }
}

/// What a box of a file is.
pub fn top_role(name: &[u8], content: &[u8]) -> Role
    ensures { result ≡ top_role name.now content.now }
{
    match top_name(name) {
        Some(role) => role,
        None => common_role(name, content),
    }
}

/// What a child of `meta` is.
pub fn child_role(name: &[u8], content: &[u8]) -> Role
    ensures { result ≡ child_role name.now content.now }
{
    match child_name(name) {
        Some(role) => role,
        None => common_role(name, content),
    }
}
