//! Copies of what a package tells: names, columns, rows, properties.
#![tactic(auto)]

mod copies;

pub use copies::{
    all_values, copies_of, copies_of_properties, names_of_streams, names_of_tables, values_of_rows,
};
