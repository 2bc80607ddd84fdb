//! The writer is flushed once, behind the last byte, and not after a refusal.

use exif::Counted;
use exif_rewrite::{Remove, rewrite, rewrite_jpeg, rewrite_jpeg_as_it_stands, rewrite_webp};
use std::alloc::Global;
use std::io;
use std::io::Write;
use std::test::Fail;

const STREAM: &[u8] = b"\xff\xd8\xff\xda\0\x02s\xff\xd9";

const FILE: &[u8] = b"RIFF\x12\0\0\0WEBPVP8L\x05\0\0\0/\x01\x80\0\x10\0";

const PUT: Option<&[u8]> = Some(b"ab");

const REMOVE: Remove = Remove::Metadata;

// A writer that counts its bytes and its flushes, and the bytes before the last flush.
#[derive(Drop)]
struct Noted {
    bytes: usize,
    flushes: usize,
    before: usize,
}

impl Write for Noted {
    fn write(&mut self, buf: &[u8]) -> io::Result<usize> {
        self.bytes = self.bytes.saturating_add(buf.len());
        Ok(buf.len())
    }

    fn flush(&mut self) -> io::Result<()> {
        self.flushes = self.flushes.saturating_add(1);
        self.before = self.bytes;
        Ok(())
    }
}

fn writer() -> Counted<Noted> {
    Counted::new(Noted {
        bytes: 0,
        flushes: 0,
        before: 0,
    })
}

// Whether so many bytes came out, and the only flush behind them.
fn is_flushed(out: Counted<Noted>, bytes: usize) -> bool {
    let got = out.into_inner();
    got.bytes == bytes && got.flushes == 1 && got.before == bytes
}

// Two bytes are put for all metadata of a file, whatever its answer is.
fn file_of(alloc: Global, bytes: &[u8]) -> Counted<Noted> {
    let mut out = writer();
    let _ = rewrite(alloc, &mut Counted::new(bytes), &mut out, PUT, REMOVE);
    out
}

#[test]
fn one_flush_behind_the_last_byte(rt: HostRuntime) -> Result<(), Fail> {
    let alloc = rt.alloc();
    let mut stream = writer();
    rewrite_jpeg(alloc, &mut Counted::new(STREAM), &mut stream, PUT, REMOVE)?;
    assert!(rt; is_flushed(stream, 21));
    let mut cut = writer();
    let mut front = Counted::new(&STREAM[..7]);
    rewrite_jpeg_as_it_stands(alloc, &mut front, &mut cut, PUT, REMOVE)?;
    assert!(rt; is_flushed(cut, 19));
    let mut file = writer();
    rewrite_webp(alloc, &mut Counted::new(FILE), &mut file, PUT, REMOVE)?;
    assert!(rt; is_flushed(file, 54));
    Ok(())
}

#[test]
fn no_flush_after_a_refusal(rt: HostRuntime) {
    assert!(rt; is_flushed(file_of(rt.alloc(), STREAM), 21));
    assert!(rt; is_flushed(file_of(rt.alloc(), FILE), 54));
    assert!(rt; file_of(rt.alloc(), b"GIF89a").into_inner().flushes == 0);
    assert!(rt; file_of(rt.alloc(), &STREAM[..7]).into_inner().flushes == 0);
}
