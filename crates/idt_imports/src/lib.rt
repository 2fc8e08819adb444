//! Files of exported tables, read as commands of a session that give a package their rows.
#![tactic(auto)]

mod columns;
mod commands;
mod faults;
mod headings;
mod rows;
mod stored;
mod summaries;
mod summary_edits;
mod tables;
mod texts;

pub use columns::IdtColumn;
pub use commands::{
    Wants, create_table, delete_rows, insert_rows, stored_columns, stored_rows, wants_of,
};
pub use faults::{Fault, Refusal, Wanted};
pub use rows::{IdtRow, check_limits, check_page};
pub use stored::has_columns;
pub use summaries::{SummaryRows, check_summary_page};
pub use summary_edits::{check_summary, set_summary};
pub use tables::{IdtTable, Imported, read_file};
pub use texts::text_of;
