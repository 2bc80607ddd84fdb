//! `Counted` hands each call on: once, with all of its bytes or of its space, and flushes.

use exif_base::{Counted, Sink, Source};
use std::alloc::Global;
use std::io;
use std::io::{ErrorKind, Read, Write};
use std::process::Abort;
use std::test::Fail;

/// A reader of two bytes a call, which notes how much space each call had, and fails at the fifth.
#[derive(Drop)]
struct NotedReads {
    spaces: Vec<usize>,
}

impl Read for NotedReads {
    fn read(&mut self, buf: &mut [u8]) -> io::Result<usize> {
        self.spaces.push(buf.len())?;
        if self.spaces.len() == 5 {
            return Err(io::Error::new(ErrorKind::Interrupted, "the fifth call"));
        }
        let count = buf.len().min(2);
        buf[..count].copy_from_slice(&b"ab"[..count]);
        Ok(count)
    }
}

fn reads(alloc: Global) -> Counted<NotedReads> {
    Counted::new(NotedReads {
        spaces: Vec::new(alloc),
    })
}

fn each_fetch_is_one(rt: &(impl Abort + AllocGlobal)) -> Result<(), Fail> {
    let mut source = reads(rt.alloc());
    let mut space = [0u8; 7];
    assert!(rt; source.fetch(&mut space)? == 2);
    assert!(rt; space == *b"ab\0\0\0\0\0");
    assert!(rt; source.fetch(&mut space[..1])? == 1);
    assert!(rt; source.fetch(&mut space[..0])? == 0);
    assert!(rt; source.into_inner().spaces.as_slice() == [7usize, 1, 0].as_slice());
    Ok(())
}

fn each_piece_of_a_skip_is_one(rt: &(impl Abort + AllocGlobal)) -> Result<(), Fail> {
    let mut source = reads(rt.alloc());
    assert!(rt; source.skip(0)? == 0);
    assert!(rt; source.skip(7)? == 7);
    let failed = source.skip(3).err().map(|e| e.kind());
    assert!(rt; failed == Some(ErrorKind::Interrupted));
    let spaces = source.into_inner().spaces;
    assert!(rt; spaces.as_slice() == [7usize, 5, 3, 1, 3].as_slice());
    Ok(())
}

#[test]
fn each_fetch_and_each_piece_of_a_skip_is_one_read(rt: HostRuntime) -> Result<(), Fail> {
    each_fetch_is_one(&rt)?;
    each_piece_of_a_skip_is_one(&rt)
}

/// A writer that takes all but the last byte of each call, and notes how many bytes each call had
/// and how many were taken before each flush.
#[derive(Drop)]
struct NotedWrites {
    taken: Vec<u8>,
    lengths: Vec<usize>,
    flushes: Vec<usize>,
}

impl Write for NotedWrites {
    fn write(&mut self, buf: &[u8]) -> io::Result<usize> {
        self.lengths.push(buf.len())?;
        let count = buf.len().saturating_sub(1);
        self.taken.extend_from_slice(&buf[..count])?;
        Ok(count)
    }

    fn flush(&mut self) -> io::Result<()> {
        self.flushes.push(self.taken.len())?;
        Ok(())
    }
}

fn writes(alloc: Global) -> Counted<NotedWrites> {
    Counted::new(NotedWrites {
        taken: Vec::new(alloc),
        lengths: Vec::new(alloc),
        flushes: Vec::new(alloc),
    })
}

#[test]
fn each_put_is_one_write_and_each_flush_one_flush(rt: HostRuntime) -> Result<(), Fail> {
    let mut sink = writes(rt.alloc());
    assert!(rt; sink.put(b"abc.")? == 3);
    assert!(rt; sink.put(b"")? == 0);
    sink.flush()?;
    assert!(rt; sink.put(b"d.")? == 1);
    sink.flush()?;
    sink.flush()?;
    let noted = sink.into_inner();
    assert!(rt; noted.taken.as_slice() == b"abcd".as_slice());
    assert!(rt; noted.lengths.as_slice() == [4usize, 0, 2].as_slice());
    assert!(rt; noted.flushes.as_slice() == [3usize, 4, 4].as_slice());
    Ok(())
}
