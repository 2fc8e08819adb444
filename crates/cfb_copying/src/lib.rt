//! Copies of compound files: the same tree, in a file whose every sector serves a use.
#![tactic(auto)]

mod beginning;
mod chains;
mod copying;
mod entries;
mod laws;
mod repairing;
mod streams;

pub use chains::copy_chain;
pub use copying::copy_of;
pub use laws::{copies_mean_the_same_tree, files_are_made_by_chains};
