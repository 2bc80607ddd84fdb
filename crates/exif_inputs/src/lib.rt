//! The files that the program `mexaldor` is given: which they are, how they are opened and read, and
//! what is asked of one: its thumbnail, its stamp, its new name, whether it is chosen. And standard
//! error, with a line of progress.
#![tactic(auto)]

mod choosing;
mod console;
mod dated;
mod inputs;
mod lines;
mod naming;
mod pending;
mod progress;
mod requests;
mod stamps;
mod thumbnails;

pub use choosing::{exif_if_any, exif_of, is_chosen};
pub use console::Console;
pub use dated::dated_count;
pub use inputs::{Input, Use, found_in_folder, open, read, read_file};
pub use lines::Lines;
pub use naming::{NewName, name_by};
pub use pending::{Next, Pending, Waiting};
pub use requests::{absolute_by, folder_for, in_folder, request_for, sidecars_of};
pub use stamps::{FileStamp, stamp_of};
pub use thumbnails::{jpeg_of, thumbnail_of};
