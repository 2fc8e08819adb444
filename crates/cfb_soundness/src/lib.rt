//! Whether a compound file that is open is sound ([MS-CFB] 2).
#![tactic(auto)]

mod entries;
mod marks;
mod places;
mod soundness;
mod streams;

pub use entries::tree_entries;
pub use soundness::is_sound;
