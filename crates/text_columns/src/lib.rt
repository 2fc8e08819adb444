//! Tables of texts as lines, in columns that are as wide as their cells.
#![tactic(auto)]

mod cell;
mod escapes;
mod lines;
mod widths;

pub use cell::{Cell, Side};
pub use escapes::escaped;
pub use lines::table_lines;
