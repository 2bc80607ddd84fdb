//! Laws of reading and writing. They hold for all bytes and all groups, and speak of the
//! definitions alone.

pub use exif_layout::laws::{
    calls_make_groups, images_are_canonical, images_are_laid_out, images_hold_what_was_pushed,
    images_read_back, pushing_keeps, scrubbing_twice_is_once, writes_send_equal_bytes,
};
pub use exif_reader::laws::strict_gives_the_first_fault_of_a_file;
pub use exif_tiff::laws::{
    answers_show_what_was_read, faults_are_hard_or_soft, limits_cut_readings, reading_is_bounded,
    strict_gives_the_first_fault,
};
