//! The usual prefixes of namespaces of XMP.

ghost use Rattle.std.specs.Prelude.{◌≡◌, map};
ghost use Rattle.exif_columns.specs.Prefixes.{is_known_prefix, known_prefixes};

// The prefixes that `exif_xml::usual_prefix` answers.
static KNOWN: [&str; 30] = [
    "dc",
    "xmp",
    "xmpRights",
    "xmpMM",
    "photoshop",
    "tiff",
    "exif",
    "exifEX",
    "aux",
    "crs",
    "Iptc4xmpCore",
    "Iptc4xmpExt",
    "plus",
    "cc",
    "lr",
    "stEvt",
    "stRef",
    "stDim",
    "stArea",
    "xmpDM",
    "mwg-rs",
    "mwg-kw",
    "MP",
    "MPRI",
    "MPReg",
    "MicrosoftPhoto",
    "digiKam",
    "darktable",
    "GPano",
    "pdf",
];

/// The prefixes that the properties of a picture have in their paths where their namespaces are
/// known, as [`exif_xml::usual_prefix`] answers them.
pub fn known_prefixes() -> &'static [&'static str]
    ensures { map (λ s. s.now) result.now ≡ known_prefixes }
{
    &KNOWN
}

/// Whether a prefix is one of them.
pub fn is_known_prefix(prefix: &str) -> bool
    ensures { result ≡ is_known_prefix prefix.now }
{
    for known in known_prefixes() {
        if *known == prefix {
            return true;
        }
    }
    false
}
