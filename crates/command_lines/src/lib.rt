//! What a line of words asks `msidb` for.
#![tactic(auto)]

mod line;

pub use line::{Line, read_words};
