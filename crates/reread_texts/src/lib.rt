//! Texts of a package in UTF-8, of bytes in a page of one's choice: the streams of the string pool, and the summary.
#![tactic(auto)]

mod heads;
mod joined;
mod page;
mod pool;
mod section;
mod summary;
mod told;

pub use joined::joined_texts;
pub use page::TextPage;
pub use pool::{RereadPool, reread_pool};
pub use summary::{RereadSummary, reread_summary};
pub use told::{tell_utf8, told_page};
