//! Lines of a table are read back. The laws speak of the definitions alone.

ghost use Rattle.std.specs.Prelude.{◌≡◌, ℕ, List, ◌∷◌, ◌++◌, [], Some};
ghost use Rattle.csv.specs.Machine.{next_record};
ghost use Rattle.csv.specs.Reading.{default_config};
ghost use Rattle.csv.specs.declared.parser.State.TheVariants as st;
ghost use Rattle.exif_columns.specs.Lines.{csv_line};

/// A reader of CSV (RFC 4180) reads the cells of a line back, and goes on behind the line. So two
/// different lists of cells are never written as the same line.
pub fn csv_lines_are_read_back()
    ensures read { (cell : List ℕ) (cells : List (List ℕ)) (rest : List ℕ)
        → next_record default_config st.StartRecord [] [] (csv_line (cell ∷ cells) ++ rest)
        ≡ Some (cell ∷ cells, st.StartRecord, rest) }
    ensures differ { (a : List ℕ) (others : List (List ℕ)) (b : List ℕ) (more : List (List ℕ))
        → csv_line (a ∷ others) ≡ csv_line (b ∷ more) → a ∷ others ≡ b ∷ more }
{}
