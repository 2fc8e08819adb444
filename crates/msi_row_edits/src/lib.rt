//! Calls that change the rows of tables of a package, whose rows lie in its compound file.
#![tactic(auto)]

mod allowing;
mod editing;
mod listing;
mod query;
mod system_rows;
mod writing;

pub use editing::{check_changeable, delete_rows, insert_rows, update_rows};
pub use system_rows::{bytes_by_keys, bytes_with_new_rows, put_table_bytes};
