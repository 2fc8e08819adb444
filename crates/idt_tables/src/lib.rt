//! Files of exported tables: their lines, and what stands above the rows.
#![tactic(auto)]

mod headings;
mod laws;
mod lines;
mod types;

pub use headings::{Heading, read_heading};
pub use laws::{headings_come_back, lines_come_back, tables_come_back};
pub use lines::{lines_of, parts_of};
pub use types::{ColumnType, Letter, read_type};
