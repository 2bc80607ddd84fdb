//! Laws of files in which values were set. They hold for all files, and speak of the definitions
//! alone.

ghost use Rattle.std.specs.Prelude.{ℕ, ◌≡◌, ◌<◌, ◌^◌, ◌∷◌, ◌++◌, List, Some, Ok, length, take};
ghost use Rattle.exif_containers.specs.Container.{container_answer, format_in};
ghost use Rattle.exif_containers.specs.declared.container.Format.{Format};
ghost use Rattle.exif_types.specs.declared.field.Field.{Field};
ghost use Rattle.exif_change.specs.Changed.{whole};
ghost use Rattle.exif_setting.specs.Growing.{grown_file};
ghost use Rattle.exif_setting.specs.InPlace.{fitting_set};
ghost use Rattle.exif_setting.specs.SetLaws.{GivesOthers, HoldsOthers, HoldsSet};
ghost use Rattle.exif_setting.specs.Setting.{set_rest};

use exif_rewrite::laws::file_answers_what_was_put;

/// Where fields are set in the Exif data of a file, the data that are read of the new file have the
/// value in each field of these names; all other fields are as they were, in their order, and so
/// are the faults. Of a TIFF file the data are the new file.
pub fn fields_set_in_the_data_of_a_file_are_read()
    ensures { (format : Format) (fields : List Field) (file bytes new : List ℕ)
        → format_in (take 4096 file) ≡ Some format → container_answer file ≡ Ok bytes
        → grown_file format fields file ≡ Ok (whole new) → length new < 2 ^ 64
        → HoldsSet format fields bytes new (container_answer new) }
{
    file_answers_what_was_put();
}

/// Where fields are set in place in a file, whatever its container, all other fields that are read
/// of the new file are as they were, in their order, and so are the faults.
pub fn fields_set_in_place_change_no_other()
    ensures { (fields left left' : List Field) (file bytes new : List ℕ) → length file < 2 ^ 64
        → container_answer file ≡ Ok bytes → fitting_set fields (file, left) ≡ Ok (new, left')
        → GivesOthers fields bytes (container_answer new) }
{}

/// Where fields are set in a file as [`set`](crate::set) does it, first in place and then in the
/// data, all other fields that are read are as they were, in their order, and so are the faults. Of
/// a TIFF file the data are the new file. The premise on the format is of the file in which the
/// first were set in place.
pub fn fields_that_are_set_change_no_other()
    ensures { (format : Format) (fields repeated rest : List Field) (field : Field)
        (file bytes mid new : List ℕ) → length file < 2 ^ 64 → length new < 2 ^ 64
        → container_answer file ≡ Ok bytes
        → fitting_set fields (file, repeated) ≡ Ok (mid, field ∷ rest)
        → format_in (take 4096 mid) ≡ Some format
        → set_rest format (mid, field ∷ rest) ≡ Ok (whole new)
        → HoldsOthers format (fields ++ repeated) bytes new (container_answer new) }
{
    file_answers_what_was_put();
}
