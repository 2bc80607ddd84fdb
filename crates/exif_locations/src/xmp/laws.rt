//! What holds of packets whose locations were erased.

ghost use Rattle.exif_locations.specs.XmpPromises.{BytesStay, NoLocationIsLeft, OthersStay, TokensStay, TwiceIsOnce};

/// A packet whose locations were erased is as long as before, and each of its bytes is as it was or
/// a space.
pub fn other_bytes_stay()
    ensures { BytesStay }
{}

/// Locations that were erased are not erased again.
pub fn twice_is_once()
    ensures { TwiceIsOnce }
{}

/// All tokens stay but those that name locations and what is within them: these are spaces.
pub fn tokens_stay()
    ensures { TokensStay }
{}

/// No tag and no attribute is left whose name is that of a location.
pub fn no_location_is_left()
    ensures { NoLocationIsLeft }
{}

/// A packet in which no property names a location stays as it is.
pub fn others_stay()
    ensures { OthersStay }
{}
