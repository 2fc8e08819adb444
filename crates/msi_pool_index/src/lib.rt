//! The places of a string pool with their index, and drafts of them that hold only what changed.
#![tactic(auto)]

mod draftparts;
mod drafts;
mod indexing;
mod parts;
mod places;
mod ready;
mod steps;

pub use draftparts::{Changes, DraftParts};
pub use parts::{PoolParts, StdParts};
pub use places::Places;
pub use ready::ReadyPlaces;
