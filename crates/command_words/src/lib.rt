//! The words of `msidb`'s command line.
#![tactic(auto)]

mod words;

pub use words::matches;
