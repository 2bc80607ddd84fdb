//! What the program does with its arguments, and its statuses and texts where files have faults and
//! devices fail.

use crate::program::{mode, show};
use exif_base::Counted;
use std::io;
use std::io::{ErrorKind, Read, Write};
use std::test::Fail;

// One image description (TIFF 6.0, section 2).
const DESCRIBED: &[u8] = b"MM\0*\0\0\0\x08\0\x01\x01\x0e\0\x02\0\0\0\x07\0\0\0\x1a\0\0\0\0Sample\0";

// Two entries, of which the last lacks two bytes.
const CUT_DIRECTORY: &[u8] =
    b"MM\0*\0\0\0\x08\0\x02\x01\0\0\x03\0\0\0\x01\0\x14\0\0\x01\x01\0\x03\0\0\0\x01\0\x15\0";

// A reader that fails.
#[derive(Drop)]
struct Broken;

impl Read for Broken {
    fn read(&mut self, _buf: &mut [u8]) -> io::Result<usize> {
        Err(io::Error::new(ErrorKind::Other, "the reader failed"))
    }
}

// A writer with space for so many bytes, which fails once they are used up.
#[derive(Drop)]
struct Short {
    taken: Vec<u8>,
    room: usize,
}

impl Write for Short {
    fn write(&mut self, buf: &[u8]) -> io::Result<usize> {
        if self.room == 0 {
            return Err(io::Error::new(ErrorKind::Other, "the writer failed"));
        }
        let front = &buf[..self.room.min(buf.len())];
        self.taken.extend_from_slice(front)?;
        self.room -= front.len();
        Ok(front.len())
    }

    fn flush(&mut self) -> io::Result<()> {
        Ok(())
    }
}

// What is shown of data: the status, and what went to either writer, each with so much space.
fn shown(
    rt: &HostRuntime,
    bytes: &[u8],
    lenient: bool,
    rooms: (usize, usize),
) -> (u8, Vec<u8>, Vec<u8>) {
    let alloc = rt.alloc();
    let short = |room| {
        Counted::new(Short {
            taken: Vec::new(alloc),
            room,
        })
    };
    let (mut out, mut err) = (short(rooms.0), short(rooms.1));
    let status = show(alloc, &mut Counted::new(bytes), &mut out, &mut err, lenient);
    (status, out.into_inner().taken, err.into_inner().taken)
}

#[test]
fn statuses(rt: HostRuntime) {
    let description = "ImageDescription primary \"Sample\"\n";
    let truncated = "exif_show: Truncated IFD\n";
    let cut = "ImageWidth primary 20 pixels\nfault: Truncated IFD\n";
    for (bytes, lenient, status, out, err) in [
        (DESCRIBED, false, 0, description, ""),
        (CUT_DIRECTORY, false, 1, "", truncated),
        (CUT_DIRECTORY, true, 3, cut, ""),
    ] {
        let (found, written, printed) = shown(&rt, bytes, lenient, (100, 100));
        assert_eq!(rt; found, status);
        assert_eq!(rt; written.as_slice(), out.as_bytes());
        assert_eq!(rt; printed.as_slice(), err.as_bytes());
    }
}

#[test]
fn modes(rt: HostRuntime) -> Result<(), Fail> {
    let alloc = rt.alloc();
    let file = || String::from_str(alloc, "a.tif");
    let flag = || String::from_str(alloc, "-c");
    assert_eq!(rt; mode(&[]), None);
    assert_eq!(rt; mode(&[file()?]), Some((false, 0)));
    assert_eq!(rt; mode(&[flag()?]), None);
    assert_eq!(rt; mode(&[flag()?, file()?]), Some((true, 1)));
    assert_eq!(rt; mode(&[flag()?, flag()?]), Some((true, 1)));
    assert_eq!(rt; mode(&[file()?, flag()?]), None);
    assert_eq!(rt; mode(&[flag()?, file()?, file()?]), None);
    Ok(())
}

#[test]
fn a_failing_reader_is_told(rt: HostRuntime) {
    let alloc = rt.alloc();
    let mut out = Counted::new(Vec::new(alloc));
    let mut err = Counted::new(Vec::new(alloc));
    let mut broken = Counted::new(Broken);
    assert_eq!(rt; show(alloc, &mut broken, &mut out, &mut err, false), 1);
    assert!(rt; out.into_inner().is_empty());
    let told: &[u8] = b"exif_show: the reader failed\n";
    assert_eq!(rt; err.into_inner().as_slice(), told);
}

#[test]
fn failing_writers_leave_fronts(rt: HostRuntime) {
    let (status, written, told) = shown(&rt, DESCRIBED, true, (3, 100));
    assert_eq!(rt; status, 1);
    assert_eq!(rt; written.as_slice(), b"Ima".as_slice());
    assert_eq!(rt;
        told.as_slice(),
        b"exif_show: the writer failed\n".as_slice()
    );
    for room in 0..5usize {
        let (status, written, told) = shown(&rt, CUT_DIRECTORY, false, (100, room));
        assert_eq!(rt; status, 1);
        assert!(rt; written.is_empty());
        assert_eq!(rt; Some(told.as_slice()), b"exif_show: Trunc".get(..room));
    }
}
