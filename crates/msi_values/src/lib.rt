//! Values of cells: null, numbers, texts and binary streams.
#![tactic(auto)]

mod borrowed;
mod laws;
mod quoted;
mod value;

pub use borrowed::BorrowedValue;
pub use laws::{equal_values_hash_alike, values_compare_equal};
pub use value::Value;
