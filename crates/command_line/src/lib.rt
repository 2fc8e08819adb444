//! The command line of `msidb`: what is done about its words.
#![tactic(auto)]

mod adoption;
mod builds;
mod commands;
mod edits;
mod empties;
mod failures;
mod files;
mod imports;
mod lists;
mod new_files;
mod progress;
mod putting;
mod reasons;
mod run;
mod sessions;
mod terminals;
mod texts;
mod unfit;
mod wrong_commands;

pub use run::msidb;
pub use terminals::Terminals;
