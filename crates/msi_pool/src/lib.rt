//! The string pool of a Windows Installer database, and the cells that refer to it.
#![tactic(auto)]

mod draft;
mod laws;
mod poolbuilder;
mod ready;
mod stringpool;
mod stringref;

pub use draft::{CountsUses, Draft, PoolChanges};
pub use laws::{
    cells_compare_equal, pools_are_read_as_they_are_held, uses_leave_places_kept,
    written_pools_are_read,
};
pub use poolbuilder::StringPoolBuilder;
pub use ready::ReadyPool;
pub use stringpool::StringPool;
pub use stringref::{StringRef, ValueRef};
