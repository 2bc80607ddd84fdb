//! Laws of pushing: what the groups have that fields are pushed into, and what their image holds.

ghost use Rattle.std.specs.Prelude.{ℕ, List};
ghost use Rattle.exif_types.specs.declared.field.Field.{Field};
ghost use Rattle.exif_layout.specs.Groups.{Group};
ghost use Rattle.exif_layout.specs.Calls.{Call, IsMadeOf, PushesAreCalls};
ghost use Rattle.exif_layout.specs.Pushing.{PushesPlainTexts, PushesRanged, PushesFew, PushesNoBlocks, SetsNothing, HasPushedAndBlocks, HasPushedAlone, HoldsInTagOrder};

/// Pushing fields keeps groups plain and in range where the fields are such, makes no directory
/// past the greatest number, and sets no blocks.
pub fn pushing_keeps()
    ensures plain { (fields : List Field) (groups : List Group) → PushesPlainTexts fields groups }
    ensures ranged { (fields : List Field) (groups : List Group) → PushesRanged fields groups }
    ensures few { (n : ℕ) (fields : List Field) (groups : List Group)
        → PushesFew n fields groups }
    ensures no_blocks { (fields : List Field) (groups : List Group)
        → PushesNoBlocks fields groups }
    ensures nothing_set { (from groups : List Group) → SetsNothing from groups }
{}

/// Each field of an image is a pushed entry of its directory or names blocks that were set, and
/// after pushes alone it is one of the pushed fields. An undefined value has its new offset. Each
/// directory holds what was pushed into it, in tag order, equal tags in push order.
pub fn images_hold_what_was_pushed()
    ensures groups { (groups : List Group) → HasPushedAndBlocks groups }
    ensures alone { (fields : List Field) → HasPushedAlone fields }
    ensures sorted { (fields : List Field) → HoldsInTagOrder fields }
{}

/// The groups that calls make in a new writer: for each number below one more than the greatest
/// that is used, what was pushed under it and is not ignored, by contexts in push order, and the
/// blocks of each kind that were set last. Fields pushed one after the other are such calls.
pub fn calls_make_groups()
    ensures made { (calls : List Call) → IsMadeOf calls }
    ensures pushes { (fields : List Field) (groups : List Group) → PushesAreCalls fields groups }
{}
