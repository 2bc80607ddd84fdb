//! What a date keeps where parts of it are refused.

use exif_datetime::DateTime;
use exif_types::Error;
use std::process::Abort;

fn assert_refused(
    rt: &(impl Abort + AllocGlobal),
    answer: Result<(), Error>,
    blank: bool,
    text: &str,
) {
    let is_wanted = match answer {
        Err(Error::BlankValue(message)) => blank && message == text,
        Err(Error::InvalidFormat(message)) => !blank && message == text,
        _ => false,
    };
    assert!(rt; is_wanted, "{text}");
}

static SUBSECS: [(&str, Option<u32>); 5] = [
    ("9876543219", Some(987654321)),
    ("", None),
    ("5 x", Some(500000000)),
    ("999999999x", Some(999999999)),
    ("000987", Some(987000)),
];

// Reads parts of seconds one after another; the last are 987000 nanoseconds.
fn read_subsecs(rt: &impl Abort, date: &mut DateTime) {
    for (text, nanosecond) in &SUBSECS {
        let answer = date.parse_subsec(text.as_bytes());
        answer.expect(rt, "parts of a second");
        assert!(rt; date.nanosecond == *nanosecond);
    }
}

// Reads two offsets; the last is -6039 minutes.
fn read_offsets(rt: &impl Abort, date: &mut DateTime) {
    date.parse_offset(b"+09:30 more").expect(rt, "an offset");
    assert!(rt; date.offset == Some(570));
    date.parse_offset(b"-99:99").expect(rt, "an offset");
    assert!(rt; date.offset == Some(-6039));
}

fn date_of(rt: &impl Abort, text: &[u8]) -> DateTime {
    DateTime::from_ascii(text).expect(rt, "a date")
}

#[test]
fn what_is_refused_changes_nothing(rt: HostRuntime) {
    let mut date = date_of(&rt, b"2016:05:04 03:02:01");
    read_subsecs(&rt, &mut date);
    read_offsets(&rt, &mut date);
    assert_refused(&rt, date.parse_offset(b"+01:2x"), false, "Not a number");
    assert_refused(&rt, date.parse_subsec(b"12x"), false, "Not a number");
    assert!(rt; date.nanosecond == Some(987000) && date.offset == Some(-6039));
    date.parse_subsec(b" ").expect(&rt, "parts of a second");
    assert!(rt; date.nanosecond == None && date.offset == Some(-6039));
}
