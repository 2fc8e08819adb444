//! Where a command of a command file is wrong, and what is wanted there, for the person who wrote it.
#![tactic(auto)]

mod columns;
mod conditions;
mod faults;
mod fields;
mod hints;
mod names;
mod near;
mod places;
mod sources;
mod values;

pub use faults::{Fault, Step, Wanted};
pub use hints::{Hint, hint_of_missing, hint_of_unknown};
pub use names::Names;
pub use near::are_near;
pub use places::fault_at;
