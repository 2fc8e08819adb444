//! The rules that a package of Windows Installer keeps, and the places at which one doesn't, over its listing in memory.
#![tactic(auto)]

mod asked;
mod cells;
mod entries;
mod foreign;
mod keys;
mod laws;
mod names;
mod nulls;
mod parts;
mod place;
mod products;
mod refers;
mod said;
mod streams;
mod texts;

pub use asked::{ColumnAt, add_parts};
pub use cells::{CellRule, places_where};
pub use entries::{CellKey, entries_in, is_in};
pub use foreign::{is_free, lost_keys, row_of, words_of};
pub use keys::broken_keys;
pub use laws::{
    foreign_is_kept, foreign_is_told, key_is_kept, key_is_told, nullable_is_kept, nullable_is_told,
    stream_is_kept, stream_is_told,
};
pub use names::ColumnName;
pub use nulls::untaken_nulls;
pub use parts::Part;
pub use place::{Place, push_if};
pub use products::{Needed, lacking_in_summary, lacking_properties};
pub use refers::lost_references;
pub use said::said_in;
pub use streams::{name_of_stream, names_of_streams, unbacked_bytes};
pub use texts::{empty_texts, long_texts};
