//! Laws of writing: what images have, what reading them gives, and when they are equal.

ghost use Rattle.std.specs.Prelude.{◌≡◌, List, None, true};
ghost use Rattle.exif_base.specs.declared.endian.Order.{Order};
ghost use Rattle.exif_tiff.specs.Apart.{looks_apart};
ghost use Rattle.exif_layout.specs.Groups.{Group};
ghost use Rattle.exif_layout.specs.Image.{image};
ghost use Rattle.exif_layout.specs.Ranged.{AreRanged, HavePlainTexts, AreReadable};
ghost use Rattle.exif_layout.specs.Refused.{write_fault};
ghost use Rattle.exif_layout.specs.Layout.{LaidOut, LengthIsEnd, BlocksStand};
ghost use Rattle.exif_layout.specs.ReadBack.{ReadsBack, ReadsFirstEight};
ghost use Rattle.exif_layout.specs.Rewriting.{RewritesSame, RewritesInEachOrder, EqualByContents, OrdersAgree, LengthsAgree};

/// The parts of an image are side by side from its first byte to its last, but for single zero
/// bytes between them, it ends where its last part ends and within 4,294,967,295 bytes, and each
/// strip, tile and thumbnail is where its two fields say. Reading looks at no byte of it as two
/// things.
pub fn images_are_laid_out()
    ensures parts { (order : Order) (groups : List Group)
        → write_fault groups ≡ None
        → LaidOut order groups }
    ensures ends { (order : Order) (groups : List Group)
        → write_fault groups ≡ None
        → LengthIsEnd order groups }
    ensures blocks { (order : Order) (groups : List Group)
        → AreRanged groups → write_fault groups ≡ None
        → BlocksStand order groups }
    ensures apart { (order : Order) (groups : List Group)
        → AreRanged groups → HavePlainTexts groups → write_fault groups ≡ None
        → looks_apart (image order groups) ≡ true }
{}

/// An image is read as the fields that were written, with no fault. Of more than eight
/// directories the first eight are read, and the ninth is the only fault.
pub fn images_read_back()
    ensures whole { (order : Order) (groups : List Group)
        → AreReadable groups
        → ReadsBack order groups }
    ensures eight { (order : Order) (groups : List Group)
        → AreRanged groups → HavePlainTexts groups → write_fault groups ≡ None
        → ReadsFirstEight order groups }
{}

/// Writing what was read gives the same image again, in each byte order, images are equal exactly
/// where their fields and blocks are, and images in the two byte orders have one length and say
/// the same.
pub fn images_are_canonical()
    ensures rewriting { (order : Order) (groups : List Group)
        → AreRanged groups → write_fault groups ≡ None
        → RewritesSame order groups }
    ensures each_order { (order : Order) (groups : List Group)
        → AreReadable groups
        → RewritesInEachOrder order groups }
    ensures equality { (order : Order) (groups : List Group)
        → AreReadable groups
        → EqualByContents order groups }
    ensures lengths { (groups : List Group) → write_fault groups ≡ None → LengthsAgree groups }
    ensures orders { (groups : List Group)
        → AreRanged groups → HavePlainTexts groups → write_fault groups ≡ None
        → OrdersAgree groups }
{}
