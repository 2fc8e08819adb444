//! Where a compound file breaks the rules that a sound one keeps ([MS-CFB] 2).
#![tactic(auto)]

mod avail;
mod counts;
mod held;
mod law;
mod links;
mod rooms;
mod sharing;
mod starts;
mod streams;
mod tables;

pub use law::is_without_findings;
pub use sharing::{shared_mini_sectors, shared_sectors};
pub use streams::broken_streams;
pub use tables::{uncovered_sectors, unmarked_tables};
