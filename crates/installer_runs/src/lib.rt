//! Whole runs on the two files of a device: a package made, or commands run, from recovery on until the device is given back.
#![tactic(auto)]

mod adopting;
mod copying;
mod creating;
mod listener;
mod moving;
mod putting;
mod running;
mod slices;
mod tally;

pub use adopting::adopt_in_place_on;
pub use copying::copy_on;
pub use creating::create_on;
pub use listener::Listener;
pub use moving::move_on;
pub use putting::put_on;
pub use running::{Ending, Until, run_on};
pub use tally::{Tally, is_fault};
