//! New compound files.
#![tactic(auto)]

mod creating;
mod laws;

pub use creating::{new_file, write_new_file};
pub use laws::new_files_mean_the_empty_tree;
