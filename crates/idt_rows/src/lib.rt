//! Rows of exported tables as lines of text, and read back from them.
#![tactic(auto)]

mod cells;
mod laws;
mod letters;
mod rows;

pub use cells::{Cell, Kind};
pub use laws::{rows_come_back, texts_come_back};
pub use letters::{comes_back, meant_text, shown_text};
pub use rows::{read_row, row_line};
