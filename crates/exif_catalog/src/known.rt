//! What a catalogue knows of the pictures that it has, and what becomes of their rows.

ghost use Rattle.std.specs.Prelude.{◌≡◌, ℕ, List, None, if◌then◌else◌, option_map};
ghost use Rattle.std.specs.BTreeMap.{get_by_text};
ghost use Rattle.std.specs.Str.{bytes_eq};
ghost use Rattle.exif_catalog.specs.Known.{has_stamp, is_below, is_below_any, is_same, is_stamp, mark_of, seen, side_of, stamp_for};

use std::collections::BTreeMap;

/// What a file is at a moment, by which a change is noticed: times are in seconds from 1970 on, and
/// the nanoseconds behind them.
#[derive(Clone, Copy)]
pub struct Stamp {
    /// How many bytes it has.
    pub size: u64,
    /// When its bytes were changed, as the file says, which programs can set.
    pub modified: u64,
    /// The nanoseconds of that.
    pub modified_ns: u64,
    /// When its bytes or attributes were changed, as the system counts it.
    pub changed: u64,
    /// The nanoseconds of that.
    pub changed_ns: u64,
    /// The number of its file system.
    pub device: u64,
    /// Its number in that.
    pub inode: u64,
}

/// What is known of a picture that has a row.
#[derive(Clone, Copy)]
pub struct Known {
    /// What its file was, if its row has all that the run needs.
    pub stamp: Option<Stamp>,
    /// Whether the row is marked as removed.
    pub is_removed: bool,
    /// Whether the file was seen in this run.
    pub is_seen: bool,
}

/// The pictures that have rows, by their paths.
pub type Rows = BTreeMap<String, Known>;

/// Whether a path is a root, or below it.
pub fn is_below(path: &str, root: &str) -> bool
    ensures { result ≡ is_below path.now root.now }
{
    let root = root.as_bytes();
    match path.as_bytes().strip_prefix(root) {
        None => false,
        Some([]) => true,
        Some([next, ..]) => *next == b'/' || root.ends_with(b"/"),
    }
}

// Whether it is so of one of the roots.
fn is_below_any(path: &str, roots: &[&str]) -> bool
    ensures { result ≡ is_below_any path.now roots.now }
{
    roots.iter().any(|root| is_below(path, root))
}

/// What a picture with a row may be of a move.
#[derive(Clone, Copy)]
pub enum Side {
    /// Its file is gone.
    Gone,
    /// It is new.
    New,
}

/// What a picture may be of a move, by what was known of it as the run began: one that was looked
/// for below the roots and not seen is gone, and one that had no row is new.
pub fn side_of(rows: &Rows, path: &str, roots: &[&str]) -> Option<Side>
    ensures { result ≡ side_of (get_by_text rows.now path.now) path.now roots.now }
{
    match rows.get(path) {
        None => Some(Side::New),
        Some(known) if !known.is_seen && is_below_any(path, roots) => Some(Side::Gone),
        Some(_) => None,
    }
}

/// How a row's mark changes: a file that was seen is not removed, and one below the roots that was
/// not seen is; `None` where the mark is right.
pub fn mark_of(path: &str, known: Known, roots: &[&str]) -> Option<bool>
    ensures { result ≡ mark_of path.now known roots.now }
{
    match (known.is_seen, known.is_removed) {
        (true, true) => Some(false),
        (false, false) if is_below_any(path, roots) => Some(true),
        _ => None,
    }
}

/// The stamp by which a row is up to date: none where it lacks the hash that a run needs.
pub fn stamp_for(stamp: Option<Stamp>, needs_hash: bool, has_hash: bool) -> Option<Stamp>
    ensures { result ≡ stamp_for stamp needs_hash has_hash }
{
    if needs_hash && !has_hash {
        return None;
    }
    stamp
}

// Whether two files are one, with one length, and neither was changed since.
fn is_same(known: Stamp, stamp: Stamp) -> bool
    ensures { result ≡ is_same known stamp }
{
    known.size == stamp.size
        && known.modified == stamp.modified
        && known.modified_ns == stamp.modified_ns
        && known.changed == stamp.changed
        && known.changed_ns == stamp.changed_ns
        && known.device == stamp.device
        && known.inode == stamp.inode
}

// Whether a stamp that is known is this one.
fn is_stamp(known: Option<Stamp>, stamp: Stamp) -> bool
    ensures { result ≡ is_stamp known stamp }
{
    match known {
        Some(known) => is_same(known, stamp),
        None => false,
    }
}

/// Whether a picture has a row, and its file had this stamp.
pub fn is_unchanged(rows: &Rows, path: &str, stamp: Stamp) -> bool
    ensures { result ≡ has_stamp (get_by_text rows.now path.now) stamp }
{
    match rows.get(path) {
        Some(known) => is_stamp(known.stamp, stamp),
        None => false,
    }
}

/// Notes that the file of a picture was seen.
pub fn see(rows: &mut Rows, path: &str)
    ensures { (q : List ℕ) → get_by_text rows.new q
        ≡ (if bytes_eq path.now q then option_map seen (get_by_text rows.old path.now)
        else get_by_text rows.old q) }
{
    if let Some(known) = rows.get_mut(path) {
        known.is_seen = true;
    }
}

/// Forgets the row of a picture.
pub(crate) fn forget(rows: &mut Rows, path: &str)
    ensures { (q : List ℕ) → get_by_text rows.new q
        ≡ (if bytes_eq path.now q then None else get_by_text rows.old q) }
{
    rows.remove(path);
}
