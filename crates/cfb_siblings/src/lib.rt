//! Trees of siblings: where a name hangs among a storage's children, and what to link when an entry comes or goes.
#![tactic(auto)]

mod laws;
mod links;
mod paths;
mod places;
mod removal;
mod rotation;

pub use laws::{
    appended_entries_are_free, changed_entries_change_the_tree, linked_entries_are_added,
    new_entries_are_alone, rotated_entries_hold_the_tree, unused_entries_are_free,
};
pub use links::{Link, NewLink, relink};
pub use paths::find_entry;
pub use places::{Place, find_place};
pub use removal::{Removal, plan_removal};
pub use rotation::{Rotation, plan_rise, plan_sink};
