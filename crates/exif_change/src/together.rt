//! What was left undone, where parts of one kind follow one another.

ghost use Rattle.std.specs.Prelude.{◌≡◌, ◌≤◌, ◌<◌, length, map};
ghost use Rattle.exif_change.specs.Changed.{undone_of};
ghost use Rattle.exif_change.specs.Together.{are_open, follows, goes_on, is_unjudged, together_len};

use crate::changed::Residual;
use exif_inventory::{Kind, Part};
use exif_privacy::Reason;
use std::fmt;

/// Something that was left undone, with how many parts of its kind follow it in the file.
pub struct Together<'a> {
    /// What was left undone.
    pub first: &'a Residual,
    /// How many parts follow it.
    pub more: usize,
}

// Whether two parts are both comments, or both not known.
fn are_open(a: Kind, b: Kind) -> bool
    ensures { result ≡ are_open a b }
{
    match a {
        Kind::Comment => matches!(b, Kind::Comment),
        Kind::Unknown => matches!(b, Kind::Unknown),
        _ => false,
    }
}

// Whether a part follows another one of its kind.
fn goes_on(a: Part, b: Part) -> bool
    ensures { result ≡ goes_on a b }
{
    match a.offset.checked_add(a.len) {
        Some(end) => end == b.offset && are_open(a.kind, b.kind),
        None => false,
    }
}

// Whether a part is not looked at.
fn is_unjudged(why: Reason) -> bool
    ensures { result ≡ is_unjudged why }
{
    matches!(why, Reason::NotJudged)
}

// Whether what was left undone is a part that follows another one, for the same reason.
fn follows(a: &Residual, b: &Residual) -> bool
    ensures { result ≡ follows (undone_of a.now) (undone_of b.now) }
{
    match (a, b) {
        (Residual::Remaining(a), Residual::Remaining(b)) => {
            is_unjudged(a.why) && is_unjudged(b.why) && goes_on(a.part, b.part)
        }
        (Residual::Part(a), Residual::Part(b)) => goes_on(*a, *b),
        _ => false,
    }
}

/// How many at the front belong together: parts of one kind, one behind the other, which stay for the
/// same reason. None, where nothing was left undone.
pub fn together_len(left: &[Residual]) -> usize
    ensures value { result ≡ together_len (map undone_of left.now) }
    ensures some { 0 < length left.now → 0 < result }
    ensures within { result ≤ length left.now }
{
    if left.is_empty() {
        return 0;
    }
    let mut n = 1;
    while n < left.len() {
        if !follows(&left[n - 1], &left[n]) {
            return n;
        }
        n += 1;
    }
    n
}

// How many parts follow.
#[derive(Clone, Copy)]
struct More(usize);

impl fmt::Display for More {
    ghost use Rattle.std.specs.Prelude.{Some};
    ghost use Rattle.exif_change.specs.Together.{more_text};

    ghost output = { λ more. Some (more_text more.0) };

    fn fmt<W: fmt::Write>(&self, f: &mut fmt::Formatter<W>) -> fmt::Result {
        let more = self.0;
        if more == 0 {
            return f.write_str("");
        }
        if more == 1 {
            return f.write_str(", and one more behind it");
        }
        write!(f, ", and {more} more behind it")
    }
}

impl<'a> fmt::Display for Together<'a> {
    ghost use Rattle.exif_change.specs.Together.{together_text};

    ghost output = { together_text };

    fn fmt<W: fmt::Write>(&self, f: &mut fmt::Formatter<W>) -> fmt::Result {
        let more = More(self.more);
        write!(f, "{}{more}", self.first)
    }
}
