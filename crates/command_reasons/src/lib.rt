//! Why commands are refused by rule, for the person who wrote them.
#![tactic(auto)]

mod cells;
mod commands;
mod known;
mod reason;
mod rows;
mod spoken;

pub use cells::{CellFault, cell_fault};
pub use commands::reason_of;
pub use known::KnownTables;
pub use reason::Reason;
pub use rows::{RowFault, row_fault, wrong_row};
pub use spoken::Spoken;
