//! Bytes without their metadata, step after step.

ghost use Rattle.std.specs.Prelude.{◌≡◌, ◌<◌, ◌≤◌, ◌+◌, ◌-◌, ◌++◌, ◌&&◌, length, take, drop, replicate};
ghost use Rattle.std.specs.Str.{bytes_eq};
ghost use Rattle.exif_blanks.specs.HeifBlanks.{all_are};
ghost use Rattle.exif_blanks.specs.BaseSteps.{front, whole};
ghost use Rattle.exif_blanks.specs.Steps.{bared, fitted, fitted_len, place_step, step_of};

use crate::boxes::{box_step, group_step, list_step, property_step};
use crate::bytes::{all_are, lesser};
use crate::config::units_step;
use crate::entries::{entry_step, name_step, text_step};
use crate::jpeg::{start_step, stream_step};
use crate::lists::{associations_step, locations_step, references_step};
use crate::obus::obus_step;
use exif_inventory_heif::Widths;

/// What the next bytes are.
#[derive(Clone, Copy)]
pub enum Place {
    /// What may be a JPEG stream.
    Start,
    /// A JPEG stream behind its first marker, and whether a scan began.
    Stream(bool),
    /// A box that describes pictures.
    Box,
    /// The boxes of properties.
    Boxes,
    /// Properties: so much space is left for them.
    Properties(usize),
    /// The configuration of a decoder, behind its fields.
    Units(ListedUnits),
    /// That of an AV1 decoder, behind its fields.
    Obus(ListedObus),
    /// Groups of items.
    Groups,
    /// Entries of items.
    Entries,
    /// The name of an item, and the texts that follow it.
    Name(EntryTexts),
    /// The texts behind the name of an item.
    Texts(EntryTexts),
    /// Which properties items have.
    Associations(AssociationList),
    /// What items refer to, and whether their numbers take four bytes.
    References(bool),
    /// Where items' data are.
    Locations(LocationList),
    /// Bytes that become zeros.
    Zeros,
    /// Bytes that stay.
    Rest,
}

/// The units of a bitstream in the configuration of a decoder.
#[derive(Clone, Copy)]
pub struct ListedUnits {
    /// How many lists of them are left behind this one.
    pub lists: usize,
    /// How many units of this list are left.
    pub left: usize,
    /// How much space is left for all.
    pub space: usize,
    /// How much is left behind them for properties.
    pub behind: usize,
}

/// The units of an AV1 bitstream in the configuration of a decoder.
#[derive(Clone, Copy)]
pub struct ListedObus {
    /// How much space is left for them.
    pub space: usize,
    /// How much is left behind them for properties.
    pub behind: usize,
}

/// The texts in the entry of an item.
#[derive(Clone, Copy)]
pub struct EntryTexts {
    /// How many are left behind its name.
    pub texts: usize,
    /// How much space is left for them.
    pub space: usize,
}

/// Entries of properties that items have.
#[derive(Clone, Copy)]
pub struct AssociationList {
    /// How many are left.
    pub left: usize,
    /// Whether the number of an item takes four bytes, and not two.
    pub wide: bool,
    /// Whether that of a property takes two bytes, and not one.
    pub large: bool,
    /// How much space is left.
    pub space: usize,
}

/// Entries of items' data.
#[derive(Clone, Copy)]
pub struct LocationList {
    /// How many are left.
    pub left: usize,
    /// How many bytes their fields take.
    pub widths: Widths,
}

/// What becomes of the bytes at the front.
#[derive(Clone, Copy)]
pub struct Step {
    /// How many bytes it takes.
    pub len: usize,
    /// How many of them stay.
    pub kept: usize,
    /// What each of the others becomes.
    pub fill: u8,
    /// What the bytes behind them are.
    pub next: Place,
}

/// So many bytes that all stay.
pub fn whole(len: usize, next: Place) -> Step
    ensures { result ≡ whole len next }
{
    front(len, len, next)
}

/// So many bytes of which so many at the front stay. The others become zeros.
pub fn front(kept: usize, len: usize, next: Place) -> Step
    ensures { result ≡ front kept len next }
{
    Step {
        len,
        kept,
        fill: 0,
        next,
    }
}

// What becomes of the bytes at the front, by what they are.
fn place_step(place: Place, bytes: &[u8]) -> Step
    requires { 0 < length bytes.now }
    ensures { result ≡ place_step place bytes.now }
{
    match place {
        Place::Start => start_step(bytes),
        Place::Stream(scanned) => stream_step(scanned, bytes),
        Place::Box => box_step(bytes),
        Place::Boxes => list_step(bytes),
        Place::Properties(space) => property_step(space, bytes),
        Place::Units(units) => units_step(units, bytes),
        Place::Obus(obus) => obus_step(obus, bytes),
        Place::Groups => group_step(bytes),
        Place::Entries => entry_step(bytes),
        Place::Name(entry) => name_step(entry, bytes),
        Place::Texts(entry) => text_step(entry, bytes),
        Place::Associations(found) => associations_step(found, bytes),
        Place::References(wide) => references_step(wide, bytes),
        Place::Locations(found) => locations_step(found, bytes),
        Place::Zeros => front(0, bytes.len(), Place::Rest),
        Place::Rest => whole(bytes.len(), Place::Rest),
    }
}

// How many of so many bytes a step takes: one at least.
fn fitted_len(len: usize, all: usize) -> usize
    requires { 0 < all }
    ensures value { result ≡ fitted_len len all }
    ensures some { 0 < result }
    ensures within { result ≤ all }
{
    let len = lesser(len, all);
    if len == 0 { 1 } else { len }
}

// A step among so many bytes.
fn fitted(all: usize, step: Step) -> Step
    requires { 0 < all }
    ensures value { result ≡ fitted all step }
    ensures some { 0 < result.len }
    ensures within { result.len ≤ all }
    ensures kept { result.kept ≤ result.len }
{
    let len = fitted_len(step.len, all);
    Step {
        len,
        kept: lesser(step.kept, len),
        fill: step.fill,
        next: step.next,
    }
}

// What becomes of the bytes at the front.
fn step_of(place: Place, bytes: &[u8]) -> Step
    requires { 0 < length bytes.now }
    ensures value { result ≡ step_of place bytes.now }
    ensures some { 0 < result.len }
    ensures within { result.len ≤ length bytes.now }
    ensures kept { result.kept ≤ result.len }
{
    fitted(bytes.len(), place_step(place, bytes))
}

// The same of the bytes from an offset on.
fn step_at(place: Place, at: usize, bytes: &[u8]) -> Step
    requires { at < length bytes.now }
    ensures value { result ≡ step_of place (drop at bytes.now) }
    ensures some { 0 < result.len }
    ensures within { at + result.len ≤ length bytes.now }
    ensures kept { result.kept ≤ result.len }
{
    step_of(place, &bytes[at..])
}

// Makes the bytes from an offset up to another one all the same.
fn blank(bytes: &mut [u8], from: usize, end: usize, fill: u8)
    requires ordered { from ≤ end }
    requires within { end ≤ length bytes.old }
    ensures { bytes.new
        ≡ take from bytes.old ++ (replicate (end - from) fill ++ drop end bytes.old) }
{
    bytes[from..end].fill(fill);
}

/// Takes the metadata out of bytes, by what they are.
pub fn bare(place: Place, bytes: &mut [u8])
    ensures { bytes.new ≡ bared place bytes.old }
{
    let mut at = 0;
    let mut next = place;
    while at < bytes.len() {
        let step = step_at(next, at, bytes);
        blank(bytes, at + step.kept, at + step.len, step.fill);
        next = step.next;
        at += step.len;
    }
}

// Whether one step is made at the front of bytes.
fn is_made(step: Step, old: &[u8], new: &[u8]) -> bool
    requires kept { step.kept ≤ step.len }
    requires old { step.len ≤ length old.now }
    requires new { step.len ≤ length new.now }
    ensures { result ≡ (bytes_eq (take step.kept old.now) (take step.kept new.now)
        && all_are step.fill (take (step.len - step.kept) (drop step.kept new.now))) }
{
    old[..step.kept] == new[..step.kept] && all_are(step.fill, &new[step.kept..step.len])
}

// The same from an offset on.
fn is_made_at(step: Step, at: usize, old: &[u8], new: &[u8]) -> bool
    requires kept { step.kept ≤ step.len }
    requires old { at + step.len ≤ length old.now }
    requires new { at + step.len ≤ length new.now }
    ensures { result ≡ (bytes_eq (take step.kept (drop at old.now))
        (take step.kept (drop at new.now))
        && all_are step.fill (take (step.len - step.kept) (drop step.kept (drop at new.now)))) }
{
    is_made(step, old.split_at(at).1, new.split_at(at).1)
}

/// Whether bytes are others without their metadata, by what these are.
pub fn is_bared(place: Place, old: &[u8], new: &[u8]) -> bool
    requires { length new.now ≡ length old.now }
    ensures { result ≡ bytes_eq (bared place old.now) new.now }
{
    let mut at = 0;
    let mut next = place;
    while at < old.len() {
        let step = step_at(next, at, old);
        if !is_made_at(step, at, old, new) {
            return false;
        }
        next = step.next;
        at += step.len;
    }
    true
}
