//! Locations erased in a packet.

ghost use Rattle.std.specs.Prelude.{◌≡◌, ◌<◌, ◌≤◌, ◌+◌, ◌++◌, length, take, drop, replicate, IfOk, IsOk, OnErr, Ok, ◌-◌};
ghost use Rattle.exif_locations.specs.XmpErasing.{erased, erased_at, found, packet_at};

use crate::xmp::fault::Fault;
use crate::xmp::step::{State, next_step};

// Whether a packet has a property that names a location.
fn find(packet: &[u8]) -> Result<bool, Fault>
    ensures { result ≡ found packet.now }
{
    let mut state = State::at_start();
    let mut at = 0;
    let mut found = false;
    while at < packet.len() {
        let next = match next_step(state, &packet[at..]) {
            Ok(next) => next,
            Err(fault) => return Err(fault),
        };
        if next.blank {
            found = true;
        }
        state = next.state;
        at += next.len;
    }
    if !state.may_end() {
        return Err(Fault::Cut);
    }
    Ok(found)
}

// Spaces over a stretch.
fn blank(packet: &mut [u8], from: usize, to: usize)
    requires order { from ≤ to }
    requires within { to ≤ length packet.old }
    ensures { packet.new ≡ take from packet.old ++ (replicate (to - from) 32 ++ drop to packet.old) }
{
    packet[from..to].fill(b' ');
}

// Erases the locations of a packet that is understood.
fn erase(packet: &mut [u8])
    requires { IsOk (erased packet.old) }
    ensures { erased packet.old ≡ Ok packet.new }
{
    let len = packet.len();
    let mut state = State::at_start();
    let mut at = 0;
    while at < len {
        let Ok(next) = next_step(state, &packet[at..]) else {
            return;
        };
        if next.blank {
            blank(packet, at, at + next.len);
        }
        state = next.state;
        at += next.len;
    }
}

/// Whether a property of an XMP packet names a location.
pub fn has_locations(packet: &[u8]) -> Result<bool, Fault>
    ensures { result ≡ found packet.now }
{
    find(packet)
}

/// Makes spaces of each property of an XMP packet that names a location, and answers whether there
/// was one. It takes no memory. An error leaves the packet as it was.
pub fn erase_locations(packet: &mut [u8]) -> Result<bool, Fault>
    ensures answer { result ≡ found packet.old }
    ensures ok { IfOk result (λ any. erased packet.old ≡ Ok packet.new) }
    ensures err { OnErr result (packet.new ≡ packet.old) }
{
    let found = find(packet)?;
    erase(packet);
    Ok(found)
}

/// The same of a packet between two offsets of a file. No byte outside of it changes.
pub fn erase_locations_at(file: &mut [u8], from: usize, to: usize) -> Result<bool, Fault>
    requires order { from ≤ to }
    requires within { to ≤ length file.old }
    ensures answer { result ≡ found (packet_at from to file.old) }
    ensures ok { IfOk result (λ any. erased_at from to file.old ≡ Ok file.new) }
    ensures err { OnErr result (file.new ≡ file.old) }
{
    erase_locations(&mut file[from..to])
}
