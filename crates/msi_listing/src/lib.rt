//! What a package holds, as plain values in memory: tables with their rows, names of streams, properties of the summary.
#![tactic(auto)]

mod alike;
mod cell;
mod column;
mod listing;
mod property;
mod row;
mod table;

pub use cell::Cell;
pub use column::{Column, Kind, Marks};
pub use listing::Listing;
pub use property::Property;
pub use row::Row;
pub use table::Table;
