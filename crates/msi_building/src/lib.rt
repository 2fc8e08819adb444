//! Packages of plain values, which say what the values say; and packages whose pool is written anew.
#![tactic(auto)]

mod agreeing;
mod assembling;
mod building;
mod comparing;
mod copies;
mod joining;
mod objects;
mod once;
mod said;
mod same;
mod system;
mod twice;

pub use building::{built_package, said_package};
pub use once::{has_texts_twice, with_texts_once};
pub use said::{Said, SaidStream, SaidTable};
pub use twice::texts_twice;
