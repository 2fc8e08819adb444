//! Reading the schema of a Windows Installer database from the rows of its system tables.
#![tactic(auto)]

mod cells;
mod column;
mod counts;
mod filled;
mod fixed;
mod found;
mod index;
mod keys;
mod laws;
mod schema;
mod tables;
mod values;

pub use column::column_from_rows;
pub use filled::are_filled;
pub use fixed::{columns_columns, tables_columns, validation_columns};
pub use index::rows_by_key;
pub use laws::{columns_are_read_by_their_rows, columns_stay_beside_other_tables, schemas_go_on};
pub use schema::schema_tables;
pub use tables::columns_of_table;
pub use values::values_of_rows;
