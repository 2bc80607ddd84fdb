//! The names of XMP properties that hold a text, a picture or an identifier.

ghost use Rattle.std.specs.Prelude.{◌≡◌, map};
ghost use Rattle.exif_locations.specs.TextNames.{no_identifiers, text_names};

// How the names of properties begin that hold what people write of a picture, keywords, names, a
// picture or an identifier, without their prefixes, in the order of their bytes.
static TEXT_NAMES: [&str; 78] = [
    "//prismstandard.org/namespaces/pmi/",
    "AOContent",
    "AOContribution",
    "AOPhysical",
    "AOTitle",
    "Address",
    "AltText",
    "BarCodeValue",
    "CaptionWriter",
    "CatalogSets",
    "Category",
    "CiAdr",
    "CollectionName",
    "CvTermName",
    "Data",
    "Event",
    "ExtDescr",
    "Headline",
    "History",
    "ID=",
    "ImageDescription",
    "ImageHistory",
    "Instructions",
    "Keywords",
    "Label",
    "LastKeyword",
    "LayerName",
    "LayerText",
    "LicenseeImageNotes",
    "LicensorCity",
    "LicensorCountry",
    "LicensorExtendedAddress",
    "LicensorNotes",
    "LicensorRegion",
    "LicensorStreetAddress",
    "MakerNote",
    "Name",
    "Nickname",
    "Notes",
    "OrganisationInImage",
    "PersonDisplayName",
    "PersonInImage",
    "ProductInImage",
    "RoutingNotes",
    "Scene",
    "Subject=",
    "Subject>",
    "SubjectCode",
    "SupplementalCategories",
    "TagName",
    "TagsList",
    "TextLayers",
    "Title",
    "UserComment",
    "UserFields",
    "address",
    "alternateTitle",
    "caption",
    "categories",
    "comment",
    "description",
    "event",
    "fieldNotes",
    "hierarchicalSubject",
    "image",
    "keyword",
    "logComment",
    "nodeID",
    "notes",
    "resource",
    "rights",
    "scene",
    "seriesTitle",
    "shotName",
    "subject",
    "subtitle",
    "title",
    "weightedFlatSubject",
];

// Identifiers that are empty, and the one that Windows writes.
static NO_IDENTIFIERS: [&str; 3] = [
    "about=''",
    "about=\"\"",
    "about=\"uuid:faf5bdd5-ba3d-11da-ad31-d33d75182f1b\"",
];

/// How the names of properties begin that may hold a location in a text, without their prefixes.
pub fn text_names() -> &'static [&'static str]
    ensures { map (λ name. name.now) result.now ≡ text_names }
{
    &TEXT_NAMES
}

/// The identifiers that name nothing.
pub fn no_identifiers() -> &'static [&'static str]
    ensures { map (λ name. name.now) result.now ≡ no_identifiers }
{
    &NO_IDENTIFIERS
}
