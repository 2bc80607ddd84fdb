//! The lines of a report as they are shown: control characters escaped, long values in short.

ghost use Rattle.std.specs.Prelude.{◌≡◌, ◌++◌, ◌-◌, ◌<◌, ◌≤◌, ◌+◌, IfOk, OnErr, OnOk, codes, drop, is_some, length, min, slice_index, string_bytes, take, true};
ghost use Rattle.std.specs.Io.KnownBytes.{Appends};
ghost use Rattle.std.specs.Str.{chars};
ghost use Rattle.exif_decisions.specs.Escaping.{escaped_text};
ghost use Rattle.exif_inputs.specs.Lines.{added, front_of, in_short, line_len, name_len, shown, spaces_of};

use exif::Sink;
use exif_base::send_all;
use exif_decisions::Escaped;
use std::alloc::{AllocError, Global};
use std::io::{self, Write};

// How many characters of a value are shown at most, and how many of a longer one.
const LONG: usize = 200;

const SHORT: usize = 60;

/// A writer that shows each line of a report.
#[derive(Drop)]
pub struct Lines<'w, W> {
    alloc: Global,
    out: &'w mut W,
    full: bool,
    line: Vec<u8>,
    // why the output took no more
    failed: Option<io::Error>,
}

impl<'w, W: Sink> Lines<'w, W> {
    /// No line yet; long values are shown whole if `full` says so.
    pub fn new(alloc: Global, out: &'w mut W, full: bool) -> Lines<'w, W> {
        Lines {
            alloc,
            out,
            full,
            line: Vec::new(alloc),
            failed: None,
        }
    }

    /// Why the output took no more, if it did not.
    pub fn failed(self) -> Option<io::Error> {
        self.failed
    }

    // Shows the line, and begins another one.
    fn show(&mut self) -> io::Result<()> {
        let line = String::from_utf8_lossy(self.alloc, self.line.as_slice())?;
        self.line.clear();
        let shown = shown(self.alloc, line.as_str(), self.full)?;
        self.send(shown.as_str())
    }

    // Sends a text to the output, and keeps why it took no more.
    fn send(&mut self, text: &str) -> io::Result<()>
        ensures sent { OnOk result (Appends (W.taken self.old.out.now)
            (W.taken self.new.out.now) text.now) }
        ensures failed { OnErr result (is_some self.new.failed ≡ true) }
        ensures kept { OnOk result (self.new.failed ≡ self.old.failed) }
    {
        match send_all(self.out, text.as_bytes()) {
            Ok(()) => Ok(()),
            Err(error) => {
                let kind = error.kind();
                self.failed = Some(error);
                Err(io::Error::from(kind))
            }
        }
    }
}

impl<'w, W: Sink> Write for Lines<'w, W> {
    fn write(&mut self, bytes: &[u8]) -> io::Result<usize> {
        let (line, taken) = line_in(bytes);
        self.line.extend_from_slice(line)?;
        if line.len() < taken {
            self.show()?;
        }
        Ok(taken)
    }

    fn flush(&mut self) -> io::Result<()> {
        Ok(())
    }
}

// How many bytes are before the first line feed, or all.
fn line_len(bytes: &[u8]) -> usize
    ensures len { result ≡ line_len 0 bytes.now }
    ensures within { result ≤ length bytes.now }
{
    for (at, byte) in bytes.iter().enumerate() {
        if *byte == b'\n' {
            return at;
        }
    }
    bytes.len()
}

// The bytes before the first line feed, or all, and how many were taken with it.
fn line_in(bytes: &[u8]) -> (&[u8], usize)
    ensures line { result.0.now ≡ take (line_len 0 bytes.now) bytes.now }
    ensures taken { result.1 ≡ min (line_len 0 bytes.now + 1) (length bytes.now) }
{
    let len = line_len(bytes);
    (&bytes[..len], len.saturating_add(1).min(bytes.len()))
}

// A line as it is shown.
fn shown(alloc: Global, line: &str, full: bool) -> Result<String, AllocError>
    ensures { IfOk result (λ text. string_bytes text ≡ shown line.now full) }
{
    let (name, value) = split(line);
    let count = count_of(value);
    if full || count <= LONG {
        return whole(alloc, line);
    }
    in_short(alloc, name, value, count)
}

// How many characters a value has.
fn count_of(value: &str) -> usize
    ensures { result ≡ length (chars value.now) }
{
    value.chars().count()
}

// All of a line.
fn whole(alloc: Global, line: &str) -> Result<String, AllocError>
    ensures { IfOk result (λ text. string_bytes text ≡ escaped_text line.now ++ codes "\n") }
{
    let line = Escaped(line);
    format!(in alloc; "{line}\n")
}

// A name, and the front of a value that has so many characters.
fn in_short(alloc: Global, name: &str, value: &str, count: usize) -> Result<String, AllocError>
    ensures { IfOk result (λ text. string_bytes text ≡ in_short name.now value.now count) }
{
    let short = front_of(alloc, value)?;
    let (name, short) = (Escaped(name), Escaped(short.as_str()));
    format!(in alloc; "{name}{short}... ({count} characters; --full shows all)\n")
}

// The first characters of a value.
fn front_of(alloc: Global, value: &str) -> Result<String, AllocError>
    ensures { IfOk result (λ text. string_bytes text ≡ front_of value.now) }
{
    let mut front = String::new(alloc);
    let mut left = SHORT;
    for c in value.chars() {
        left = push_while(&mut front, left, c)?;
    }
    Ok(front)
}

// Adds a character while so many are to be added yet, and answers how many are behind it.
fn push_while(front: &mut String, left: usize, c: char) -> Result<usize, AllocError>
    ensures text { OnOk result (string_bytes front.new
        ≡ string_bytes front.old ++ added left c) }
    ensures left { IfOk result (λ behind. behind ≡ left - 1) }
{
    if left == 0 {
        return Ok(0);
    }
    front.push(c)?;
    Ok(left - 1)
}

// The tag and the directory of a line with the space after them, and the value. A tag without a
// name is `Tag(CONTEXT, NUMBER)`. The line of a fault is a value.
fn split(line: &str) -> (&str, &str)
    ensures name { result.0.now ≡ take (name_len line.now) line.now }
    ensures value { result.1.now ≡ drop (name_len line.now) line.now }
{
    line.split_at(name_len(line.as_bytes()))
}

// How many spaces a line has before its value.
fn spaces_of(line: &[u8]) -> u8
    ensures { result ≡ spaces_of line.now }
{
    if line.starts_with(b"fault: ") {
        1
    } else if line.starts_with(b"Tag(") {
        3
    } else {
        2
    }
}

// How many bytes of a line are before its value.
fn name_len(line: &[u8]) -> usize
    ensures len { result ≡ name_len line.now }
    ensures within { result ≤ length line.now }
    ensures space { 0 < result → slice_index line.now (result - 1) ≡ 32 }
{
    let mut spaces = spaces_of(line);
    for (at, byte) in line.iter().enumerate() {
        if *byte == b' ' {
            if spaces <= 1 {
                return at + 1;
            }
            spaces -= 1;
        }
    }
    0
}
