//! Objects of a compound file as listings show them, by their entries in memory.
#![tactic(auto)]

mod entry;
mod finding;
mod kinds;
mod laws;
mod listing;
mod parts;
mod siblings;
mod streams;
mod walking;

pub use entry::Entry;
pub use finding::find_by_path;
pub use kinds::is_stream_at;
pub use laws::changes_leave_others;
pub use listing::{Entries, EntriesOrder, children_at, entry_at, walk_at};
pub use streams::stream_at;
