//! The types of boxes that are read.

ghost use Rattle.std.specs.Prelude.{◌≡◌};
ghost use Rattle.exif_isobmff.specs.Kinds.{kind_of, same_kind};

/// The type of a box.
#[derive(Clone, Copy, Debug, PartialEq, Eq)]
pub enum Kind {
    /// `ftyp`: the brands of the file.
    FileType,
    /// `meta`: the boxes about items.
    Meta,
    /// `idat`: data beside the items.
    ItemData,
    /// `iinf`: what the items are.
    ItemInfo,
    /// `infe`: what one item is.
    ItemInfoEntry,
    /// `iloc`: where the items are.
    ItemLocation,
    /// Any other type.
    Other,
}

impl Kind {
    /// The type that four characters name.
    pub fn of(name: &[u8]) -> Kind
        ensures { result ≡ kind_of name.now }
    {
        match name {
            b"ftyp" => Kind::FileType,
            b"meta" => Kind::Meta,
            b"idat" => Kind::ItemData,
            b"iinf" => Kind::ItemInfo,
            b"infe" => Kind::ItemInfoEntry,
            b"iloc" => Kind::ItemLocation,
            _ => Kind::Other,
        }
    }
    /// Whether two types are the same.
    pub fn is_same(self, other: Kind) -> bool
        ensures { result ≡ same_kind self other }
    {
        self == other
    }
}
