//! Laws of rows. They hold for all pictures, and speak of the definitions alone.

ghost use Rattle.std.specs.Prelude.{List};
ghost use Rattle.exif_summary.specs.declared.columns.Column.{Column};
ghost use Rattle.exif_types.specs.declared.field.Field.{Field};
ghost use Rattle.exif_catalog.specs.Laws.{ColumnTakes};

/// Each column of the table takes what a picture says of it: none is refused for its type.
pub fn columns_take_values()
    ensures takes { (fields : List Field) (column : Column) → ColumnTakes fields column }
{}
