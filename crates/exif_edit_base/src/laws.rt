//! Laws of offsets. They hold for all bytes, and speak of the definitions alone.

ghost use Rattle.std.specs.Prelude.{ℕ, List};
ghost use Rattle.exif_edit_base.specs.Locations.{LocatesWhatIsRead};

/// The fields that are located are those that reading gives, in their order.
pub fn located_fields_are_read()
    ensures { (bytes : List ℕ) → LocatesWhatIsRead bytes }
{}
