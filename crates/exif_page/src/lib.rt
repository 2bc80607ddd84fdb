//! One HTML page to look at pictures: thumbnails by day, with filters, and nothing loaded from
//! elsewhere.
#![tactic(auto)]

mod cameras;
mod cards;
mod dates;
mod entries;
mod escaping;
mod exposures;
mod facts;
pub mod laws;
mod links;
mod markup;
mod numbers;
mod pages;
mod paths;
mod sections;
mod thumbnails;

pub use cameras::camera_of;
pub use dates::{day_of, time_of};
pub use entries::{Entry, Thumbnail};
pub use exposures::{Exposure, exposure_of};
pub use facts::{Facts, Texts, entry_of, texts_of};
pub use links::link_to;
pub use pages::{end_html, entry_html, foot_html, head_html, page_html, thumbnail_html};
pub use sections::{Section, section_of};
