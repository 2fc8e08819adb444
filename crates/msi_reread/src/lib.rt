//! Packages whose texts are read by code pages of one's choice: the streams that have them are put in UTF-8.
#![tactic(auto)]

mod opening;
mod putting;
mod reading;
mod rereading;

pub use opening::{adopt_by, open_by};
pub use rereading::{Lacking, Pages, reread, reread_properties, reread_texts};
