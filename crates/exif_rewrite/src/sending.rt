//! A whole file, sent.

ghost use Rattle.exif_base.specs.Sent.{Sends};

use exif_base::{Sink, send_all};
use std::io;

/// Sends all of a file, and flushes once behind it.
pub fn send_file<W: Sink>(out: &mut W, file: &[u8]) -> io::Result<()>
    ensures sends { Sends W.Sink out.old out.new result file.now }
{
    send_all(out, file)?;
    out.flush()
}
