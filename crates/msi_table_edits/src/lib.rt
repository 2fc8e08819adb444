//! What becomes of the tables of a package where one is made or dropped, and the calls that do it.
#![tactic(auto)]

mod created;
mod describing;
mod dropped;
mod dropping;
mod laws;
mod listing;
mod making;
mod placing;
mod putting;
mod remaining;
mod replacing;
mod testing;
mod validating;

pub use created::{new_tables_are_stored, new_validations_are_stored};
pub use dropped::dropped_packages_are_stored;
pub use dropping::drop_table;
pub use laws::{dropped_tables_are_gone, new_tables_are_among_the_others};
pub use making::create_table;
pub use validating::add_validation;
