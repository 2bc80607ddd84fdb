//! Laws of scrubbing.

ghost use Rattle.std.specs.Prelude.{List};
ghost use Rattle.exif_base.specs.declared.endian.Order.{Order};
ghost use Rattle.exif_types.specs.declared.field.Field.{Field};
ghost use Rattle.exif_layout.specs.Scrubbing.{ScrubsToKept, ScrubsOnce, Scrubs};

/// Scrubbing what was read leaves no field of the Gps directory and no value of an unknown type.
/// Its image is read, in both modes and orders, as exactly what is left, and scrubbing it again
/// gives the same image.
pub fn scrubbing_twice_is_once()
    ensures kept { (fields : List Field) → ScrubsToKept fields }
    ensures once { (order : Order) (fields : List Field) → ScrubsOnce order fields }
    ensures images { (order : Order) (fields : List Field) → Scrubs order fields }
{}
