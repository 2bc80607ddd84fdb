//! Zeros in place of metadata (ISO/IEC 14496-12:2015, 8.1.2, 8.2.2, 8.3.2, 8.4.2).

ghost use Rattle.std.specs.Prelude.{◌≡◌, ◌≤◌, length};
ghost use Rattle.exif_movie_scrub.specs.Zeros.{dates_end, dates_len, dates_start, freed, has_no_dates, is_done, undated, with_zeros};

use exif_inventory::boxes::head_of;

/// What of a part becomes zeros.
#[derive(Clone, Copy, Debug, PartialEq, Eq)]
pub enum Zeroed {
    /// Nothing: its bytes stay.
    Nothing,
    /// The content of a box, which becomes free space of the same size.
    Content,
    /// The dates of a header.
    Dates,
}

// Makes a box free space, whose header has so many bytes.
fn make_free(front: usize, bytes: &mut [u8])
    requires least { 8 ≤ front }
    requires within { front ≤ length bytes.old }
    ensures { bytes.new ≡ freed front bytes.old }
{
    bytes[4..8].copy_from_slice(b"free");
    bytes[front..].fill(0);
}

// How many bytes the two dates of a header take, by the version that its content begins with.
fn dates_len(front: usize, bytes: &[u8]) -> usize
    ensures value { result ≡ dates_len front bytes.now }
    ensures most { result ≤ 16 }
{
    if front < bytes.len() && bytes[front] == 1 {
        16
    } else {
        8
    }
}

// The offset of the dates, behind version and flags.
fn dates_start(front: usize, bytes: &[u8]) -> usize
    requires { front ≤ 16 }
    ensures value { result ≡ dates_start front bytes.now }
    ensures within { result ≤ length bytes.now }
{
    bytes.len().min(front + 4)
}

// The offset of the end of the dates.
fn dates_end(front: usize, bytes: &[u8]) -> usize
    requires { front ≤ 16 }
    ensures value { result ≡ dates_end front bytes.now }
    ensures ordered { dates_start front bytes.now ≤ result }
    ensures within { result ≤ length bytes.now }
{
    bytes.len().min(front + 4 + dates_len(front, bytes))
}

// Writes zeros over the dates of a header.
fn clear_dates(front: usize, bytes: &mut [u8])
    requires { front ≤ 16 }
    ensures { bytes.new ≡ undated front bytes.old }
{
    let start = dates_start(front, bytes);
    let end = dates_end(front, bytes);
    bytes[start..end].fill(0);
}

/// Writes zeros over what of a box becomes zeros.
#[tactic(auto, unfolding(crate::specs::Zeros::with_zeros))]
pub fn write_zeros(zeroed: Zeroed, bytes: &mut [u8])
    ensures { bytes.new ≡ with_zeros zeroed bytes.old }
{
    let Some(head) = head_of(bytes) else {
        return;
    };
    match zeroed {
        Zeroed::Nothing => {}
        Zeroed::Content => make_free(head.front, bytes),
        Zeroed::Dates => clear_dates(head.front, bytes),
    }
}

// Whether the dates of a header are zeros.
fn has_no_dates(front: usize, bytes: &[u8]) -> bool
    requires { front ≤ 16 }
    ensures { result ≡ has_no_dates front bytes.now }
{
    let start = dates_start(front, bytes);
    let end = dates_end(front, bytes);
    bytes[start..end].iter().all(|b| *b == 0)
}

/// Whether nothing of a part is left to become zeros. A box that is to become free space is not
/// free space yet.
pub fn is_done(zeroed: Zeroed, bytes: &[u8]) -> bool
    ensures { result ≡ is_done zeroed bytes.now }
{
    match zeroed {
        Zeroed::Nothing => true,
        Zeroed::Content => false,
        Zeroed::Dates => match head_of(bytes) {
            Some(head) => has_no_dates(head.front, bytes),
            None => true,
        },
    }
}
