//! Bytes sent to a sink.

ghost use Rattle.exif_base.specs.Sent.{Sends};

use crate::device::Sink;
use std::io;
use std::io::ErrorKind;

/// Puts all the bytes, in as many puts as the sink needs.
///
/// An error of the sink ends it at once, `Interrupted` too. A put that takes none of some bytes is
/// an error of kind `WriteZero`. After an error exactly a front of the bytes was taken.
#[tactic(auto, using(crate::proofs::Sent::front_taken))]
pub fn send_all<W: Sink>(sink: &mut W, bytes: &[u8]) -> io::Result<()>
    ensures sends { Sends W.Sink sink.old sink.new result bytes.now }
{
    let mut at = 0;
    while at < bytes.len() {
        let n = sink.put(&bytes[at..])?;
        if n == 0 {
            return Err(io::Error::new(ErrorKind::WriteZero, "no byte was taken"));
        }
        at += n;
    }
    Ok(())
}
