//! Laws of changed files: what is read of a file without its metadata, of one that got those of
//! another picture, and of one whose dates were moved and moved back; and of edits in place, which
//! ordinary data never refuse. They hold for all files, and speak of the definitions alone. A shift
//! that is given as text has fewer than 2^42 seconds.
#![tactic(auto)]

ghost use Rattle.std.specs.Prelude.{ℕ, Bool, true, ◌≡◌, ◌<◌, ◌^◌, List, [], ◌∷◌, length, Option, None, Some, Ok};
ghost use Rattle.exif_types.specs.declared.value.Value.{Value};
ghost use Rattle.exif_tiff.specs.Visits.{AreBytes};
ghost use Rattle.exif_containers.specs.Container.{container_answer, format_in};
ghost use Rattle.exif_containers.specs.declared.container.Format.{Format};
ghost use Rattle.exif_containers.specs.declared.container.Format.TheVariants.{Heif, Tiff, WebP};
ghost use Rattle.exif_rewrite.specs.FileLaws.{AnswersPut};
ghost use Rattle.exif_rewrite.specs.ScrubbedExif.{wanted};
ghost use Rattle.exif_datetime.specs.Shift.{moved_value, opposite};
ghost use Rattle.exif_datetime.specs.declared.shift.ClockShift.{ClockShift};
ghost use Rattle.exif_change.specs.Changed.{whole};
ghost use Rattle.exif_change.specs.Changes.{kept, scrubbed, upright};
ghost use Rattle.exif_change.specs.Reading.{Contents, file_contents};
ghost use Rattle.exif_setting.specs.Shifting.{shifted};
ghost use Rattle.exif_setting.specs.declared.dates.Dates.{Dates};
ghost use Rattle.exif_change.specs.declared.scrubbing.Removed.TheVariants.{AllButOrientation, Metadata};
ghost use Rattle.exif_change_laws.specs.Positions.{KeepsPositions};
ghost use Rattle.exif_change_laws.specs.Scrubbed.{HasNoField, is_rewritten, orientation, orientation_alone};
ghost use Rattle.exif_change_laws.specs.Shifted.{all_read};

pub mod copied;
pub mod edits;
pub mod found;
pub mod scrubs;
pub mod sets;
pub mod shown;

use exif_datetime::laws::a_moved_date_is_moved_back;
use exif_rewrite::laws::file_answers_what_was_put;
use exif_tiff::laws::limits_cut_readings;

/// Of a WebP file without its metadata no Exif data are read.
pub fn a_scrubbed_webp_file_has_no_exif()
    ensures { (file new : List ℕ)
        → format_in file ≡ Some WebP
        → scrubbed Metadata file ≡ Ok (whole new) → length new < 2 ^ 64
        → AnswersPut None (container_answer new) }
{
    file_answers_what_was_put();
}

/// Where the orientation is kept, the Exif data that are read of a WebP file are those of exactly
/// the orientation.
pub fn a_scrubbed_webp_file_keeps_the_orientation()
    ensures { (file new : List ℕ) (put : Option (List ℕ))
        → format_in file ≡ Some WebP
        → kept AllButOrientation file ≡ Ok put
        → scrubbed AllButOrientation file ≡ Ok (whole new) → length new < 2 ^ 64
        → AnswersPut put (container_answer new) }
{
    file_answers_what_was_put();
}

/// Of a JPEG, WebP or HEIF file without its metadata no field is read, and of a HEIF file none
/// where the orientation is to be kept either: its fields are all erased. Of a TIFF file those that
/// describe its pictures stay.
pub fn a_scrubbed_file_has_no_field()
    ensures all { (file new : List ℕ)
        → (format_in file ≡ Some Tiff → ⊥)
        → scrubbed Metadata file ≡ Ok (whole new)
        → length file < 2 ^ 64 → length new < 2 ^ 64
        → HasNoField (file_contents new) }
    ensures heif { (file new : List ℕ)
        → format_in file ≡ Some Heif
        → scrubbed AllButOrientation file ≡ Ok (whole new)
        → length file < 2 ^ 64
        → HasNoField (file_contents new) }
{
    file_answers_what_was_put();
    limits_cut_readings();
}

/// Where the orientation is kept, exactly one field is read of a JPEG or WebP file: the orientation
/// of the old file, with its value. Where the old file has none, no field is read.
pub fn a_scrubbed_file_keeps_the_orientation_alone()
    ensures kept { (format : Format) (file new : List ℕ) (old : Contents) (number : ℕ)
        → is_rewritten format ≡ true → format_in file ≡ Some format
        → file_contents file ≡ Ok old → wanted upright old.fields ≡ orientation number ∷ []
        → number < 2 ^ 16
        → scrubbed AllButOrientation file ≡ Ok (whole new) → length new < 2 ^ 64
        → file_contents new ≡ Ok (orientation_alone old.order number) }
    ensures nothing_kept { (format : Format) (file new : List ℕ)
        → is_rewritten format ≡ true → format_in file ≡ Some format
        → kept AllButOrientation file ≡ Ok None
        → scrubbed AllButOrientation file ≡ Ok (whole new) → length new < 2 ^ 64
        → HasNoField (file_contents new) }
{
    file_answers_what_was_put();
}

/// The value of a field whose date was moved is moved back by the opposite shift: to the same
/// texts, byte for byte.
pub fn a_moved_value_is_moved_back()
    ensures { (by : ClockShift) (old new : Value)
        → by.seconds < 2 ^ 42 → moved_value by old ≡ Ok new
        → moved_value (opposite by) new ≡ Ok old }
{
    a_moved_date_is_moved_back();
}

/// Where a shift of a file's dates and the opposite shift left nothing undone, the same fields and
/// faults are read of the file as before, in both modes.
pub fn a_shift_and_its_opposite_give_what_was_read()
    ensures { (by : ClockShift) (dates : Dates) (file new back : List ℕ) (lenient : Bool)
        → by.seconds < 2 ^ 42 → length file < 2 ^ 64
        → shifted by dates file ≡ Ok (whole new)
        → shifted (opposite by) dates new ≡ Ok (whole back)
        → all_read lenient back ≡ all_read lenient file }
{
    a_moved_value_is_moved_back();
    limits_cut_readings();
}

/// Where a shift of a file's dates and the opposite shift left nothing undone, the old file is
/// there again, byte for byte: if both find each date, when they set it, where the old file has it.
pub fn a_shift_and_its_opposite_give_the_old_file()
    ensures { (by : ClockShift) (dates : Dates) (file new back : List ℕ)
        → by.seconds < 2 ^ 42 → length file < 2 ^ 64 → AreBytes file
        → shifted by dates file ≡ Ok (whole new)
        → shifted (opposite by) dates new ≡ Ok (whole back)
        → KeepsPositions by dates file new back → back ≡ file }
{
    a_moved_value_is_moved_back();
    limits_cut_readings();
}
