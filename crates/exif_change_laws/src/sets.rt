//! Laws of files in which assigned values were set.

ghost use Rattle.std.specs.Prelude.{◌≡◌, Bool, All, Ok, true};
ghost use Rattle.exif_tiff.specs.Answers.{Whole};
ghost use Rattle.exif_containers.specs.Container.{container_answer};
ghost use Rattle.exif_layout.specs.Pushing.{HoldsInTagOrder};
ghost use Rattle.exif_grow.specs.FieldPromises.{is_set};
ghost use Rattle.exif_change_laws.specs.Assigned.{FieldSetTwice, GivesAssigned, GivesAssignedAgain, IsReadAs, SetAnew, SetOnce, SetTwice, ValueSetTwice, all_new, all_set, both_set, data_of_new, now_read};
ghost use Rattle.exif_change_laws.specs.Shifted.{all_read};

use exif_assign::laws::values_are_of_their_types;
use exif_layout::laws::{images_hold_what_was_pushed, images_read_back, pushing_keeps};
use exif_rewrite::laws::file_answers_what_was_put;
use exif_tiff::laws::limits_cut_readings;

/// Where values are set in a file as [`set`](exif_setting::set) does it, the Exif data that are read
/// of the new file have a field of each assigned name, and each such field has its value; all other
/// fields are as they were, in their order, and so are the faults.
pub fn assigned_values_are_read()
    ensures { (s : SetOnce) → GivesAssigned (all_set s) s.old.bytes (container_answer s.new) }
{
    file_answers_what_was_put();
    limits_cut_readings();
}

/// Where values are set in a file without Exif data, which is a JPEG or WebP file then, it gets new
/// ones: exactly the assigned fields are read of them, each with its value, in the order of their
/// tags, and no fault.
pub fn assigned_values_of_new_data_are_read()
    ensures answered { (s : SetAnew) → container_answer s.new ≡ Ok (data_of_new (all_new s)) }
    ensures read { (s : SetAnew) (lenient : Bool)
        → all_read lenient s.new ≡ Ok (Whole (now_read s)) }
    ensures values { (s : SetAnew) → All (IsReadAs (now_read s)) (all_new s) }
    ensures others { (s : SetAnew) → All (λ f. is_set (all_new s) f ≡ true) (now_read s) }
    ensures sorted { (s : SetAnew) → HoldsInTagOrder (all_new s) }
{
    values_are_of_their_types();
    pushing_keeps();
    images_hold_what_was_pushed();
    images_read_back();
    file_answers_what_was_put();
}

/// Where the same values are set in a file twice, the second time nothing that is read changes:
/// each field of an assigned name has the value that it had, all other fields are as they were, in
/// their order, and so are the faults. Of the new file at most 1,000,000 entries are read.
pub fn values_that_are_set_again_are_read_as_before()
    ensures { (s : SetTwice)
        → GivesAssignedAgain (both_set s) s.now.bytes (container_answer s.again) }
{
    values_are_of_their_types();
    file_answers_what_was_put();
    limits_cut_readings();
}

/// Where a value was set in Exif data in place, and is set again, no byte changes: if both times
/// the last field of its name has its entry at the same offset.
pub fn a_value_that_is_set_again_changes_no_byte()
    ensures { (s : ValueSetTwice) → s.again ≡ s.new }
{}

/// The same of a field in a file: no byte of the file changes, if its Exif data are in the same
/// extents then, as they are in TIFF, JPEG and WebP files.
pub fn a_field_that_is_set_again_changes_no_byte_of_a_file()
    ensures { (s : FieldSetTwice) → s.again ≡ s.new }
{}
