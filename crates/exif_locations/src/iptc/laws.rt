//! What holds of data whose locations were erased.

ghost use Rattle.exif_locations.specs.IptcPromises.{BytesStay, LocationsAreBlank, TwiceIsOnce};

/// They are as long as before, and each byte is as it was or a space.
pub fn other_bytes_stay()
    ensures { BytesStay }
{}

/// Locations that were erased are not erased again.
pub fn twice_is_once()
    ensures { TwiceIsOnce }
{}

/// They are read as before, and the value of each dataset of a location is spaces.
pub fn locations_are_blank()
    ensures { LocationsAreBlank }
{}
