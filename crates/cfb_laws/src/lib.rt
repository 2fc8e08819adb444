//! Laws of compound files: what the clauses of `cfb` give together.
#![tactic(auto)]

mod laws;

pub use laws::{
    only_commits_add, opened_files_hold_what_their_bytes_mean, sound_files_mean_their_trees,
    streams_have_the_bytes_of_their_sectors, strict_files_stay_strict, walks_show_each_object_once,
};
