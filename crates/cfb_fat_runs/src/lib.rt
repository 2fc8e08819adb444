//! A table of sectors in memory, as runs: consecutive sectors with one kind of entry ([MS-CFB] 2.3).
#![tactic(auto)]

mod blocks;
mod freeing;
mod run_list;
mod runs;
mod table;
mod telling;
mod walking;

pub use freeing::count_stretches;
pub use table::Table;
