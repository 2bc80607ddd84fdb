//! Debug texts of what no file holds: views of unsigned numbers, fields, dates and read faults.
//! Those of values are in the cases of `exif_vectors` that list fields.

use super::list;
use exif_base::ReadFault;
use exif_datetime::DateTime;
use exif_types::{Field, In, Tag, Value};
use std::alloc::AllocError;
use std::fmt::Debug;
use std::process::Abort;

// This is shown as a text.
fn assert_debug<T: Debug + Drop>(rt: &(impl Abort + AllocGlobal), value: T, text: &str) {
    let shown = format!(in rt.alloc(); "{value:?}").expect(rt, "memory");
    assert!(rt; shown.as_str() == text, "{text}");
}

// The view of a value as unsigned numbers is shown as a text.
fn assert_view(rt: &(impl Abort + AllocGlobal), value: &Value, text: &str) {
    let Ok(view) = value.as_uint() else {
        panic!(rt; "a value of no unsigned numbers");
    };
    assert_debug(rt, view, text);
}

fn assert_views(rt: &(impl Abort + AllocGlobal)) {
    let bytes = Value::Byte(list(rt, &[1, 2]));
    assert_view(rt, &bytes, "UIntValue(Byte([1, 2]))");
    drop(bytes);
    let short = Value::Short(list(rt, &[65535]));
    assert_view(rt, &short, "UIntValue(Short([65535]))");
    drop(short);
    let none = Value::Long(list(rt, &[]));
    assert_view(rt, &none, "UIntValue(Long([]))");
    drop(none);
}

fn assert_field(rt: &(impl Abort + AllocGlobal)) {
    let field = Field {
        tag: Tag::ExifVersion,
        ifd_num: In::PRIMARY,
        value: Value::Byte(list(rt, &[7])),
    };
    let text = "Field { tag: Tag(Exif, 36864), ifd_num: In(0), value: Byte([7]) }";
    assert_debug(rt, field, text);
}

fn assert_date(rt: &(impl Abort + AllocGlobal)) {
    let mut date = DateTime::from_ascii(b"2016:05:04 03:02:01").expect(rt, "a date");
    date.parse_offset(b"-99:99").expect(rt, "an offset");
    assert_debug(
        rt,
        date,
        "DateTime { year: 2016, month: 5, day: 4, hour: 3, minute: 2, second: 1, nanosecond: None, offset: Some(-6039) }",
    );
}

#[test]
fn debug_texts(rt: HostRuntime) {
    assert_views(&rt);
    assert_field(&rt);
    assert_date(&rt);
    assert_debug(&rt, ReadFault::from(AllocError), "OutOfMemory");
}
