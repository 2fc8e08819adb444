//! Expressions of a Windows Installer database: built, worth a value on a row, and printed; and conditions on rows.
#![tactic(auto)]

mod ast;
mod build;
mod condition;
mod expr;
mod laws;
mod matching;
mod operators;
mod record;
mod row_test;

pub use condition::{fmt_condition, narrowed_condition};
pub use expr::Expr;
pub use laws::folding_keeps_the_worth;
pub use matching::{holds, knows, knows_condition};
pub use row_test::RowTest;
