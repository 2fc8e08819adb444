//! What a package holds, read from it as a listing.
#![tactic(auto)]

mod cells;
mod package;

pub use package::{Unlisted, listing_of};
