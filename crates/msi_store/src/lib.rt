//! The file of a package: its parts, its streams by their names, and the rows of its tables.
#![tactic(auto)]

mod bytes;
mod parts;
mod placing;
mod rows;
mod store;
mod system;

pub use bytes::{stream_bytes, table_bytes};
pub use parts::read_parts;
pub use placing::are_in_place;
pub use rows::rows_of_table;
pub use store::Store;
pub use system::rows_by_columns;
