//! Laws of TIFF data. They hold for all bytes, and speak of the definitions alone.

pub mod answers;
pub mod footprint;
pub mod fronts;
pub mod reading;

pub use answers::answers_show_what_was_read;
pub use footprint::what_is_not_looked_at_is_free;
pub use fronts::a_front_may_say_all;
pub use reading::{
    faults_are_hard_or_soft, limits_cut_readings, reading_is_bounded, strict_gives_the_first_fault,
};
