//! Columns of a Windows Installer table: their types, their cells, and which values they take.
#![tactic(auto)]

mod builder;
mod cell;
mod column;

pub use builder::ColumnBuilder;
pub use column::{Column, ColumnType};
