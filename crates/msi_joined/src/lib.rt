//! Inserts into one table that follow one another, as one.
#![tactic(auto)]

mod joining;
mod laws;

pub use joining::joined_with;
pub use laws::joined_inserts_are_done_each;
