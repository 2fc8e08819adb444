//! Which bytes open as a compound file.
#![tactic(auto)]

mod laws;
mod opening;
mod strict;
mod tables;

pub use laws::{
    chains_in_memory_are_in_the_file, opened_files_can_be_opened, reads_keep_what_opening_tells,
};
pub use opening::open_file;
