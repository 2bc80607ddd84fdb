//! Copies of fields and values, and defaults of tags, where memory is refused.

use super::{are_equal, runs_out};
use exif::{Error, Field, Tag, Value};
use exif_test_support::files;
use exif_test_support::readings::read_strictly;
use exif_test_support::shortage::{Outcome, in_turn};
use std::process::Abort;
use std::test::Fail;

// Whether what was made is this. It is let go by one call.
fn is_this<T: PartialEq + Drop>(made: T, wanted: &T) -> bool {
    let is_equal = are_equal(&made, wanted);
    drop(made);
    is_equal
}

// What making something comes to that is to be this.
fn making<T: PartialEq + Drop>(made: Result<T, Error>, wanted: &T) -> Outcome {
    match made {
        Ok(made) => Outcome::answered(is_this(made, wanted)),
        Err(error) => Outcome::refused(error),
    }
}

// Each copying of a field and of its value runs out of memory, or gives an equal one. An unknown
// value and a list of no texts are copied without memory.
fn copy_runs_out_of_memory(rt: &(impl Abort + AllocGlobal), field: &Field) {
    let alloc = rt.alloc();
    let number = field.tag.number();
    let of_value = in_turn(alloc, || making(field.value.clone(alloc), &field.value));
    let of_field = in_turn(alloc, || making(field.clone(alloc), field));
    let of_value = of_value.expect(rt, "enough memory");
    let of_field = of_field.expect(rt, "enough memory");
    assert!(rt; (of_value > 0) == (number < 65012), "at {number}");
    assert!(rt; (of_field > 0) == (number < 65012), "at {number}");
}

#[test]
fn copies_run_out_of_memory(rt: HostRuntime) -> Result<(), Fail> {
    let exif = read_strictly(rt.alloc(), files::EVERY_TYPE_BIG)?;
    assert!(rt; exif.fields().len() == 14);
    for field in exif.fields() {
        copy_runs_out_of_memory(&rt, field);
    }
    Ok(())
}

// What a tag's default comes to that is to be this value.
fn defaulting(made: Result<Option<Value>, Error>, wanted: &Value) -> Outcome {
    match made {
        Ok(Some(value)) => Outcome::answered(is_this(value, wanted)),
        Ok(None) => Outcome::Wrong,
        Err(error) => Outcome::refused(error),
    }
}

// Each making of a tag's default runs out of memory, or gives the value that it gives with enough
// of it.
fn default_runs_out_of_memory(rt: &(impl Abort + AllocGlobal), tag: Tag) {
    let alloc = rt.alloc();
    let value = tag.default_value(alloc).expect(rt, "memory");
    let value = value.expect(rt, "a default");
    let refused = in_turn(alloc, || defaulting(tag.default_value(alloc), &value));
    drop(value);
    runs_out(rt, refused);
}

// Numbers, a fraction, undefined bytes, a byte and a text.
static DEFAULTS: [Tag; 5] = [
    Tag::BitsPerSample,
    Tag::XResolution,
    Tag::FileSource,
    Tag::GPSAltitudeRef,
    Tag::GPSSpeedRef,
];

#[test]
fn defaults_run_out_of_memory(rt: HostRuntime) {
    for tag in DEFAULTS {
        default_runs_out_of_memory(&rt, tag);
    }
}
