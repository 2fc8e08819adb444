//! What `_Validation` says of the columns of a package, and the places at which the package is otherwise, over its listing in memory.
#![tactic(auto)]

mod constraint;
mod described;
mod stated;
mod values;

pub use constraint::{Constraint, broken_constraints};
pub use described::{ColumnPlace, undescribed_columns};
