//! The summary of a package as an exported table: written as its file, and read back from its rows.
#![tactic(auto)]

mod laws;
mod moments;
mod numbers;
mod pages;
mod reading;
mod texts;
mod writing;

pub use laws::summaries_come_back;
pub use moments::date_of;
pub use numbers::whole_of;
pub use reading::value_in;
pub use writing::{is_exported, summary_text};
