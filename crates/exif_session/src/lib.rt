//! One run of the program `mexaldor`: what is requested, the files that wait, how they are changed,
//! and where answers and messages go.
#![tactic(auto)]

mod change;
mod change_out;
mod elsewhere;
mod flags;
mod in_place;
mod notes;
mod output;
mod request;
mod scrubbing;
mod session;

pub use change_out::change_into;
pub use elsewhere::Elsewhere;
pub use exif_files::Keeping;
pub use flags::{UnknownDate, cells_by, date_tag_by, dates_by, form_by, separator_by};
pub use in_place::{NotChanged, Plan, absolute_of, change_in_place, key_of, outcome_of};
pub use notes::NoteLine;
pub use output::{OutError, out_of, write_out};
pub use request::{
    Cataloguing, Change, Copying, Form, Geotagging, Paging, Reading, Renaming, Request, Table,
    Target, Task,
};
pub use scrubbing::{ScrubOption, ScrubOptions};
pub use session::{Item, Session, Stop};
