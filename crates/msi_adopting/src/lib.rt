//! Packages that are adopted: a copy is made of one whose only defect is that its pool doesn't count the uses that its cells make.
#![tactic(auto)]

mod adopting;
mod counting;
mod in_place;
mod judging;
mod putting;

pub use adopting::adopt;
pub use counting::uses_of_places;
pub use in_place::adopt_in_place;
