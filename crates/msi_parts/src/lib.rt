//! The parts of a package, as they are read from its file one by one: what they say of the package that a tree packs.
#![tactic(auto)]

mod finding;
mod kind;
mod laws;
mod parts;
mod unlisted;
mod wellness;

pub use finding::table_named;
pub use kind::kind_of;
pub use laws::{parts_are_of_their_package, selected_rows_are_whole, sound_parts_are_judged_so};
pub use parts::PackageParts;
pub use unlisted::lists_system_table;
pub use wellness::{are_free_names, are_well, is_validation_usual};
