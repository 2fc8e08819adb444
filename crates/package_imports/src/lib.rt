//! Files of exported tables, and the commands that give a package their rows.
#![tactic(auto)]

mod folders;
mod paths;
mod plans;
mod sources;

pub use folders::read_folder;
pub use plans::{Plan, plan_import};
pub use sources::{Source, read_sources};
