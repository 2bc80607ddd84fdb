//! The names of XMP properties that are a location.

ghost use Rattle.std.specs.Prelude.{◌≡◌, map};
ghost use Rattle.exif_locations.specs.LocationNames.{location_endings, location_names};

// The names of properties that are a location, without their prefixes, in the order of their bytes.
static LOCATION_NAMES: [&str; 59] = [
    "City",
    "Country",
    "CountryCode",
    "CountryName",
    "LRFTargetLat",
    "LRFTargetLon",
    "Location",
    "LocationCreated",
    "LocationId",
    "LocationName",
    "LocationShown",
    "ProvinceState",
    "RatingRegion",
    "State",
    "Sublocation",
    "WorldRegion",
    "alt",
    "box",
    "cellid",
    "cgi",
    "city",
    "continent",
    "coordinates",
    "country",
    "countryCode",
    "county",
    "coverage",
    "dctermsLocation",
    "featurename",
    "footprintWKT",
    "higherGeography",
    "higherGeographyID",
    "island",
    "islandGroup",
    "lac",
    "lat",
    "lat_long",
    "line",
    "lng",
    "locality",
    "location",
    "locationID",
    "locationRemarks",
    "lon",
    "long",
    "mcc",
    "mnc",
    "municipality",
    "point",
    "polygon",
    "pos",
    "posList",
    "province",
    "shotLocation",
    "state",
    "stateProvince",
    "verbatimCoordinates",
    "verbatimLocality",
    "waterBody",
];

// How the names of numbers end that are a location.
static LOCATION_ENDINGS: [&str; 4] = ["atitude", "ltitude", "ongitude", "ongtitude"];

/// The names of properties that are a location, without their prefixes.
pub fn location_names() -> &'static [&'static str]
    ensures { map (λ name. name.now) result.now ≡ location_names }
{
    &LOCATION_NAMES
}

/// How the names of latitudes, altitudes and longitudes end.
pub fn location_endings() -> &'static [&'static str]
    ensures { map (λ name. name.now) result.now ≡ location_endings }
{
    &LOCATION_ENDINGS
}
