//! Packages of any maker that are judged: which rules of a sound package they break, where, and a sound copy with right counts.
#![tactic(auto)]

mod adopt;
mod answers;
mod check;
mod columns;
mod containers;
mod packages;
mod places;
mod twice;
mod unsound;
mod utf8;

pub use adopt::{adopted_package, tell_unadopted};
pub use check::{Checking, check_package};
pub use twice::tell_twice;
pub use unsound::tell_unsound;
