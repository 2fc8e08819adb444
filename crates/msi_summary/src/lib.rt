//! The summary of a Windows Installer database.
#![tactic(auto)]

mod parts;
mod summary;

pub use summary::SummaryInfo;
