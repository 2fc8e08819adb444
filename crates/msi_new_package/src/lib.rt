//! New packages: the rows that describe their one table, and the tree that stores them.
#![tactic(auto)]

mod creating;
mod laws;
mod preparing;
mod rows;

pub use creating::{NewPackage, create_package};
pub use laws::{new_packages_are_stored, new_parts_come_back};
pub use rows::{columns_rows, validation_rows};
