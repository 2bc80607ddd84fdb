//! Fractions, quoted and plain texts: what comes of a formatter that fails.

use arrayvec::ArrayString;
use exif_text::{Contents, PlainText, Quoted, Rational};
use std::fmt::Write;
use std::process::Abort;

fn a_quoted_text_fails(rt: &impl Abort) {
    let quoted = Quoted(b"abc");
    assert!(rt; write!(ArrayString::<5>::new(), "{quoted}").is_ok());
    assert!(rt; write!(ArrayString::<4>::new(), "{quoted}").is_err());
}

fn a_plain_text_fails(rt: &impl Abort) {
    let plain = PlainText(Contents::Short(&[10, 20]));
    assert!(rt; write!(ArrayString::<6>::new(), "{plain}").is_ok());
    assert!(rt; write!(ArrayString::<5>::new(), "{plain}").is_err());
}

fn a_padded_text_fails(rt: &impl Abort) {
    let half = Rational::from((10, 20));
    assert!(rt; write!(ArrayString::<6>::new(), "{half:6}").is_ok());
    assert!(rt; write!(ArrayString::<6>::new(), "{half:7}").is_err());
}

#[test]
fn texts_fail_where_their_formatter_does(rt: HostRuntime) {
    a_quoted_text_fails(&rt);
    a_plain_text_fails(&rt);
    a_padded_text_fails(&rt);
}
