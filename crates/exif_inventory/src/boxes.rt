//! The headers of boxes (ISO/IEC 14496-12:2015, 4.2).

ghost use Rattle.std.specs.Prelude.{◌≡◌, ◌≤◌, length, IfSome};
ghost use Rattle.exif_inventory.specs.BoxHeaders.{box_header, content_of, head_of, large_header, name_of};

// The size and the type of a box.
const HEADER_LEN: usize = 8;
// Those of a box whose size has eight bytes.
const LARGE_LEN: usize = 16;

/// What the header of a box says.
#[derive(Clone, Copy, Debug)]
pub struct BoxHeader {
    /// How many bytes the header takes: 8, or 16.
    pub front: usize,
    /// How many bytes the box takes, with the header. It is absent where the box runs to the end of
    /// what it is in.
    pub size: Option<u64>,
}

/// The header of a box that is whole.
#[derive(Clone, Copy, Debug)]
pub struct Head {
    /// How many bytes it takes.
    pub front: usize,
    /// How many bytes the box takes, with it.
    pub len: usize,
}

// The header of a box whose size has eight bytes.
fn large_header(bytes: &[u8]) -> Option<BoxHeader>
    requires { 8 ≤ length bytes.now }
    ensures value { result ≡ large_header bytes.now }
    ensures least { IfSome result (λ header. 8 ≤ header.front) }
    ensures most { IfSome result (λ header. header.front ≤ 16) }
    ensures within { IfSome result (λ header. header.front ≤ length bytes.now) }
{
    if bytes.len() < LARGE_LEN {
        return None;
    }
    let size = u64::from_be_bytes([
        bytes[8], bytes[9], bytes[10], bytes[11], bytes[12], bytes[13], bytes[14], bytes[15],
    ]);
    Some(BoxHeader {
        front: LARGE_LEN,
        size: Some(size),
    })
}

/// The header at the front of bytes. `None` where they are fewer than it has.
///
/// The size that it says may be less than the header's, or more than there are bytes.
#[tactic(auto, unfolding(crate::specs::BoxHeaders::box_header))]
pub fn box_header(bytes: &[u8]) -> Option<BoxHeader>
    ensures value { result ≡ box_header bytes.now }
    ensures least { IfSome result (λ header. 8 ≤ header.front) }
    ensures most { IfSome result (λ header. header.front ≤ 16) }
    ensures within { IfSome result (λ header. header.front ≤ length bytes.now) }
{
    if bytes.len() < HEADER_LEN {
        return None;
    }
    let size = u32::from_be_bytes([bytes[0], bytes[1], bytes[2], bytes[3]]);
    match size {
        0 => Some(BoxHeader {
            front: HEADER_LEN,
            size: None,
        }),
        1 => large_header(bytes),
        _ => Some(BoxHeader {
            front: HEADER_LEN,
            size: Some(u64::from(size)),
        }),
    }
}

/// The header at the front of bytes, if the box is whole.
#[tactic(auto, unfolding(crate::specs::BoxHeaders::head_of))]
pub fn head_of(bytes: &[u8]) -> Option<Head>
    ensures value { result ≡ head_of bytes.now }
    ensures least { IfSome result (λ head. 8 ≤ head.front) }
    ensures most { IfSome result (λ head. head.front ≤ 16) }
    ensures front { IfSome result (λ head. head.front ≤ head.len) }
    ensures within { IfSome result (λ head. head.len ≤ length bytes.now) }
{
    let Some(header) = box_header(bytes) else {
        return None;
    };
    let len = header.size.unwrap_or(bytes.len() as u64);
    if len < header.front as u64 || (bytes.len() as u64) < len {
        return None;
    }
    Some(Head {
        front: header.front,
        len: len as usize,
    })
}

/// The type of a box.
pub fn name_of(bytes: &[u8]) -> &[u8]
    requires { 8 ≤ length bytes.now }
    ensures { result.now ≡ name_of bytes.now }
{
    &bytes[4..8]
}

/// What follows the header of a box.
pub fn content_of(head: Head, bytes: &[u8]) -> &[u8]
    requires front { head.front ≤ head.len }
    requires within { head.len ≤ length bytes.now }
    ensures { result.now ≡ content_of head bytes.now }
{
    &bytes[head.front..head.len]
}
