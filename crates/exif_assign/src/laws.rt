//! A law of values that are assigned. It speaks of the definitions alone.

ghost use Rattle.std.specs.Prelude.{ℕ, ◌≡◌, List, Ok, Some};
ghost use Rattle.exif_text.specs.declared.field_type.FieldType.{FieldType as Kind};
ghost use Rattle.exif_types.specs.ValueTypes.{field_type_of};
ghost use Rattle.exif_types.specs.declared.tag.Tag.{Tag as Name};
ghost use Rattle.exif_types.specs.declared.value.Value.{Value as Content};
ghost use Rattle.exif_assign.specs.Values.{value_in};

/// A value that a text spells for a type is of this type.
pub fn values_are_of_their_types()
    ensures { (tag : Name) (type : Kind) (text : List ℕ) (value : Content)
        → value_in tag type text ≡ Ok value → field_type_of value ≡ Some type }
{}
