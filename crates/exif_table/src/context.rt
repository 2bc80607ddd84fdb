//! The kinds of directories.

ghost use Rattle.std.specs.Prelude.{◌≡◌, ◌≤◌, length};

/// The kind of directory that a tag belongs to (Exif 2.32, 4.5.1 and 4.6.3).
#[derive(Clone, Copy, Debug, PartialEq, Eq, PartialOrd, Ord, Hash)]
pub enum Context {
    /// A directory of the chain (TIFF 6.0).
    Tiff,
    /// The directory that the Exif pointer names.
    Exif,
    /// The directory that the GPS pointer names.
    Gps,
    /// The directory that the Interoperability pointer names.
    Interop,
}

impl Context {
    ghost use Rattle.exif_table.specs.Contexts.{context_name};

    /// The name of the variant.
    pub fn name(self) -> &'static str
        ensures name { result.now ≡ context_name self }
        ensures short { length result.now ≤ 7 }
    {
        match self {
            Context::Tiff => "Tiff",
            Context::Exif => "Exif",
            Context::Gps => "Gps",
            Context::Interop => "Interop",
        }
    }
}
