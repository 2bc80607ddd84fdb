//! Laws of shifts. They hold for all dates, and speak of the definitions alone.

ghost use Rattle.std.specs.Prelude.{◌≡◌, ◌<◌, ◌^◌, Some, true};
ghost use Rattle.exif_text.specs.declared.date.Date.{Date};
ghost use Rattle.exif_text.specs.declared.date.TimeOfDay.{TimeOfDay};
ghost use Rattle.exif_datetime.specs.Calendar.{is_day, is_time};
ghost use Rattle.exif_datetime.specs.Shift.{moved, opposite};
ghost use Rattle.exif_datetime.specs.declared.shift.ClockShift.{ClockShift};

/// A date that was moved is moved back by the opposite shift.
pub fn a_moved_date_is_moved_back()
    ensures { (by : ClockShift) (date new_date : Date) (time new_time : TimeOfDay)
        → is_day date ≡ true → is_time time ≡ true → by.seconds < 2 ^ 42
        → moved by (date, time) ≡ Some (new_date, new_time)
        → moved (opposite by) (new_date, new_time) ≡ Some (date, time) }
{}
