//! By how much dates are shifted, as programs are given it.

use exif_setting::ClockShift;

#[test]
fn shifts_are_clocks(rt: HostRuntime) {
    for text in [
        "", "+", "1", "1d", "1:60", "1:00:60", "d1:00", "1d1d1:00", "+-1:00", "1:0x",
    ] {
        assert!(rt; ClockShift::parse(text).is_none());
    }
    assert!(rt; ClockShift::parse("+1d01:00") == ClockShift::parse("25:00:00"));
    assert!(rt; ClockShift::parse("-0:00:01") != ClockShift::parse("0:00:01"));
}
