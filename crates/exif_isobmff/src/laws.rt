//! Laws of the boxes: what is read by computing is what the trees of the grammars say.

ghost use Rattle.std.specs.Prelude.{ℕ, List};
ghost use Rattle.exif_isobmff.specs.declared.extents.Within.{Within};
ghost use Rattle.exif_isobmff.specs.declared.locations.Extent.{Extent};
ghost use Rattle.exif_isobmff.specs.BoxGrammar.{BoxIsRead, BoxTree, CountIsRead, Counted, CountedAreRead, IsABox, IsACount, IsAParent, Parent, ParentIsRead};
ghost use Rattle.exif_isobmff.specs.Boxes.{Part};
ghost use Rattle.exif_isobmff.specs.Extents.{ExifIsLocated};
ghost use Rattle.exif_isobmff.specs.FileGrammar.{BrandsAreChecked, BrandsTree, FileBoxesAreRead, FrontTree, IsABrands, IsAFront, MetaIsFound};
ghost use Rattle.exif_isobmff.specs.ItemGrammar.{BlockIsRead, BlockTree, EntryIsRead, EntryTree, InfoIsRead, InfoTree, IsABlock, IsAnEntry, IsAnInfo};
ghost use Rattle.exif_isobmff.specs.LocationGrammar.{ExtentBytes, IsAnIloc, IsAText, IsAnItem, ItemIsJoined, LocationsAreRead, LocationsTree, TextIsRead};
ghost use Rattle.exif_isobmff.specs.ItemLocations.{ItemExtents};

/// A box is read as its tree says, whatever follows it, and what is read as a box is that of a
/// tree. As many boxes as are counted are read so.
pub fn boxes_are_read()
    ensures read { (b : BoxTree) (rest : List ℕ) → BoxIsRead b rest }
    ensures only { (text : List ℕ) (p : Part) (rest : List ℕ) → IsABox text p rest }
    ensures counted { (bs : List BoxTree) (rest : List ℕ) → CountedAreRead bs rest }
{}

/// A count of boxes is read as its tree says, and all bytes are those of such a tree for any count.
pub fn counts_are_boxes()
    ensures read { (n : ℕ) (c : Counted) → CountIsRead n c }
    ensures every { (n : ℕ) (bytes : List ℕ) → IsACount n bytes }
{}

/// What is in a box is read as the tree of its boxes says, and all bytes are those of such a
/// tree.
pub fn parents_are_boxes()
    ensures read { (p : Parent) → ParentIsRead p }
    ensures every { (bytes : List ℕ) → IsAParent bytes }
{}

/// An entry of `iinf` is read as its tree says, and all bytes are those of such a tree.
pub fn entries_are_read()
    ensures read { (e : EntryTree) → EntryIsRead e }
    ensures every { (bytes : List ℕ) → IsAnEntry bytes }
{}

/// An `iinf` is read as its tree says, and all bytes are those of such a tree.
pub fn item_infos_are_read()
    ensures read { (t : InfoTree) → InfoIsRead t }
    ensures every { (bytes : List ℕ) → IsAnInfo bytes }
{}

/// The bytes of the Exif item are read as their tree says, and all bytes are those of such a tree.
pub fn exif_items_are_read()
    ensures read { (t : BlockTree) → BlockIsRead t }
    ensures every { (bytes : List ℕ) → IsABlock bytes }
{}

/// The boxes of a file are read as the tree of its boxes says, the last one as far as it is
/// there. All bytes are those of such a tree, as `parents_are_boxes` says.
pub fn file_boxes_are_read()
    ensures read { (p : Parent) → FileBoxesAreRead p }
{}

/// The brands of an `ftyp` are checked as their tree says, and all bytes are those of such a tree.
pub fn brands_are_checked()
    ensures checked { (t : BrandsTree) → BrandsAreChecked t }
    ensures every { (bytes : List ℕ) → IsABrands bytes }
{}

/// The `meta` of a file is found as the tree of the boxes up to it says, or refused as what ends
/// them says, and all bytes are those of such a tree.
pub fn files_up_to_meta()
    ensures found { (t : FrontTree) → MetaIsFound t }
    ensures every { (bytes : List ℕ) → IsAFront bytes }
{}

/// An `iloc` gives the locations of the wanted item that the tree of its items and extents says,
/// and one that is read is that of such a tree.
pub fn item_locations_are_read()
    ensures read { (wanted : ℕ) (t : LocationsTree) → LocationsAreRead wanted t }
    ensures only { (wanted : ℕ) (body : List ℕ) (listed : List ItemExtents)
        → IsAnIloc wanted body listed }
{}

/// An extent is read as the text that is at its location, in the file or beside the items, and
/// what is read of it is there.
pub fn extents_are_texts()
    ensures read { (within : Within) (bytes : List ℕ) (base : ℕ) (e : Extent) (text : List ℕ)
        → TextIsRead within bytes base e text }
    ensures only { (within : Within) (bytes : List ℕ) (base : ℕ) (e : Extent) (text : List ℕ)
        → IsAText within bytes base e text }
{}

/// An item is the texts of its extents, one after the other, where they are at most 65,535 bytes
/// together.
pub fn items_are_joined()
    ensures joined { (bytes_of : ExtentBytes) (es : List Extent) (texts : List (List ℕ))
        → ItemIsJoined bytes_of es texts }
    ensures only { (bytes_of : ExtentBytes) (es : List Extent) (item : List ℕ)
        → IsAnItem bytes_of es item }
{}

/// The Exif data of a file of fewer than 2^64 bytes are in the ranges that are answered, each of
/// which is whole.
pub fn exif_data_are_located()
    ensures located { (file : List ℕ) → ExifIsLocated file }
{}
