//! Tags, directories, fractions and dates at every width: without an error, and with the right
//! text. What a contract says of their padded texts holds where printing succeeds, so these loops
//! show that it does.

use exif_base::Items;
use exif_datetime::DateTime;
use exif_types::{Context, Field, In, Rational, SRational, Tag, Value};
use std::fmt;
use std::fmt::{Alignment, Display, Write};
use std::process::Abort;

/// Each width up to this one.
const MAX_WIDTH: usize = 5000;

/// Each alignment is tried at each width up to this one.
const SMALL_WIDTH: usize = 300;

static ALIGNMENTS: [Alignment; 3] = [Alignment::Left, Alignment::Center, Alignment::Right];

/// What was written: spaces, a text, and spaces. It keeps no byte, so that long lines cost little.
#[derive(Drop)]
struct Written<'a> {
    text: &'a [u8],
    matched: usize,
    before: usize,
    behind: usize,
    is_other: bool,
}

impl<'a> Written<'a> {
    /// Nothing was written yet, and this text is to come.
    fn new(text: &'a str) -> Written<'a> {
        Written {
            text: text.as_bytes(),
            matched: 0,
            before: 0,
            behind: 0,
            is_other: false,
        }
    }

    /// Takes a space in front of the text, or behind it.
    fn space(&mut self) {
        if self.matched == 0 {
            self.before = self.before.saturating_add(1);
        } else {
            self.behind = self.behind.saturating_add(1);
        }
    }

    /// Takes the next bytes of the text.
    fn piece(&mut self, bytes: &[u8]) {
        let end = self.matched.saturating_add(bytes.len());
        if self.text.get(self.matched..end) == Some(bytes) {
            self.matched = end;
        } else {
            self.is_other = true;
        }
    }

    /// Whether all of the text was written behind so many spaces, and spaces up to a width.
    fn is_padded(&self, width: usize, before: usize) -> bool {
        let missing = width.saturating_sub(self.text.len());
        !self.is_other
            && self.matched == self.text.len()
            && self.before == before
            && self.behind == missing.saturating_sub(before)
    }
}

impl fmt::Write for Written<'_> {
    fn write_str(&mut self, s: &str) -> fmt::Result {
        let is_inside = self.matched > 0 && self.matched < self.text.len();
        if s == " " && !is_inside {
            self.space();
        } else {
            self.piece(s.as_bytes());
        }
        Ok(())
    }
}

/// Writes a value at a width with an alignment, or with none.
fn write_at<T: Display>(
    out: &mut Written<'_>,
    value: &T,
    width: usize,
    align: Option<Alignment>,
) -> fmt::Result {
    match align {
        None => write!(out, "{value:width$}"),
        Some(Alignment::Left) => write!(out, "{value:<width$}"),
        Some(Alignment::Center) => write!(out, "{value:^width$}"),
        Some(Alignment::Right) => write!(out, "{value:>width$}"),
    }
}

/// How many spaces are in front of a text from which so many are missing.
fn spaces_before(align: Alignment, missing: usize) -> usize {
    match align {
        Alignment::Left => 0,
        Alignment::Center => missing / 2,
        Alignment::Right => missing,
    }
}

/// A value at a width with an alignment, or with none, is this text at a side of it.
fn assert_at<T: Display>(
    rt: &impl Abort,
    value: &T,
    text: &str,
    width: usize,
    align: Option<Alignment>,
    side: Alignment,
) {
    let mut out = Written::new(text);
    let written = write_at(&mut out, value, width, align);
    let before = spaces_before(side, width.saturating_sub(text.len()));
    assert!(rt;
        written.is_ok() && out.is_padded(width, before),
        "width {width}"
    );
}

/// A value is this text at a width with each alignment; without one it is at this side.
fn assert_with_each_alignment<T: Display>(
    rt: &impl Abort,
    value: &T,
    text: &str,
    width: usize,
    side: Alignment,
) {
    assert_at(rt, value, text, width, None, side);
    for align in ALIGNMENTS {
        assert_at(rt, value, text, width, Some(align), align);
    }
}

/// A value is this text with each alignment at small widths and at the largest.
fn assert_padded<T: Display>(rt: &impl Abort, value: &T, text: &str, side: Alignment) {
    for width in 0..=SMALL_WIDTH {
        assert_with_each_alignment(rt, value, text, width, side);
    }
    assert_with_each_alignment(rt, value, text, MAX_WIDTH, side);
}

/// A value is this text at every width, with one alignment after the other where they are many.
fn assert_at_every_width<T: Display>(rt: &impl Abort, value: &T, text: &str, side: Alignment) {
    assert_padded(rt, value, text, side);
    for width in SMALL_WIDTH..MAX_WIDTH {
        let align = ALIGNMENTS[width % 3];
        assert_at(rt, value, text, width, Some(align), align);
    }
}

// A tag with a name, and the longest one without.
#[test]
fn tags(rt: HostRuntime) {
    assert_at_every_width(&rt, &Tag::DateTime, "DateTime", Alignment::Left);
    let longest = Tag(Context::Interop, 65535);
    assert_padded(&rt, &longest, "Tag(Interop, 65535)", Alignment::Left);
}

#[test]
fn directories(rt: HostRuntime) {
    assert_at_every_width(&rt, &In::PRIMARY, "primary", Alignment::Left);
    assert_padded(&rt, &In::THUMBNAIL, "thumbnail", Alignment::Left);
    assert_padded(&rt, &In(2), "IFD2", Alignment::Left);
    assert_padded(&rt, &In(65535), "IFD65535", Alignment::Left);
}

#[test]
fn fractions(rt: HostRuntime) {
    let most = Rational::from((u32::MAX, u32::MAX));
    assert_padded(&rt, &most, "4294967295/4294967295", Alignment::Right);
    let half = SRational::from((-2, -1));
    assert_padded(&rt, &half, "-2/-1", Alignment::Right);
}

/// A value is shown as this text, which no width and no alignment changes.
fn assert_unpadded<T: Display>(rt: &impl Abort, value: &T, text: &str) {
    for width in 0..=MAX_WIDTH {
        for align in ALIGNMENTS {
            let mut out = Written::new(text);
            let written = write_at(&mut out, value, width, Some(align));
            assert!(rt; written.is_ok() && out.is_padded(0, 0), "width {width}");
        }
    }
}

fn assert_date(rt: &impl Abort) {
    let date = DateTime::from_ascii(b"2016:05:04 03:02:01").expect(rt, "a date");
    assert_unpadded(rt, &date, "2016-05-04 03:02:01");
}

/// A field's value is shown as these texts, without its unit and with it.
fn assert_value(rt: &impl Abort, field: &Field, text: &str, with_unit: &str) {
    assert_unpadded(rt, &field.display_value(), text);
    assert_unpadded(rt, &field.display_value().with_unit(()), with_unit);
}

fn assert_fraction_with_unit(rt: &(impl Abort + AllocGlobal)) {
    let third = Items::from_slice(rt.alloc(), &[Rational::from((1, 3))]);
    let field = Field {
        tag: Tag::ExposureTime,
        ifd_num: In::PRIMARY,
        value: Value::Rational(third.expect(rt, "memory")),
    };
    assert_value(rt, &field, "1/3", "1/3 s");
    drop(field);
}

#[test]
fn texts_that_no_width_changes(rt: HostRuntime) {
    assert_date(&rt);
    assert_fraction_with_unit(&rt);
}
