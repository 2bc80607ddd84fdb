//! Why values of a picture were not read, in words.

ghost use Rattle.std.specs.Prelude.{◌≡◌, Some};
ghost use Rattle.std.specs.Fmt.{WritesOnOk};
ghost use Rattle.exif_show_text.specs.FaultLines.{cause_text, offset_text};

use exif_values::{Cause, Fault};
use std::fmt;

/// Why a packet, or a part of it, was not read: `XMP is not well formed, at byte 20 of the packet
/// at offset 300`.
#[derive(Clone, Copy, Debug)]
pub struct FaultLine(pub Fault);

// Writes why.
fn write_cause<W: fmt::Write>(f: &mut fmt::Formatter<W>, cause: Cause) -> fmt::Result
    ensures { WritesOnOk W.write_str_gives f.old result (cause_text cause) f.new }
{
    match cause {
        Cause::Xmp(refusal) => {
            let fault = refusal.fault;
            let offset = refusal.offset;
            write!(f, "{fault}, at byte {offset} of the packet")
        }
        Cause::Portions(offset) => {
            write!(
                f,
                "the rest of an XMP packet is missing from its byte {offset} on"
            )
        }
        Cause::TooMany => f.write_str("more than 65535 XMP properties, in the packet"),
        Cause::Text(_) => f.write_str("a text of the PNG file with a packet is not read"),
        Cause::Iptc(refusal) => {
            let fault = refusal.fault;
            let offset = refusal.offset;
            write!(f, "{fault}, at byte {offset} of the data")
        }
    }
}

// Writes where the file has the packet, if that is known.
fn write_offset<W: fmt::Write>(f: &mut fmt::Formatter<W>, offset: Option<usize>) -> fmt::Result
    ensures { WritesOnOk W.write_str_gives f.old result (offset_text offset) f.new }
{
    match offset {
        Some(offset) => write!(f, " at offset {offset}"),
        None => Ok(()),
    }
}

impl fmt::Display for FaultLine {
    ghost use Rattle.exif_show_text.specs.FaultLines.{fault_line};

    ghost output = { λ line. Some (fault_line line.0) };

    fn fmt<W: fmt::Write>(&self, f: &mut fmt::Formatter<W>) -> fmt::Result {
        let Fault { cause, offset } = self.0;
        write_cause(f, cause)?;
        write_offset(f, offset)
    }
}
