//! The judge of soundness of a package, in the file that it lies in.
#![tactic(auto)]

mod checking;
mod counting;
mod defect;
mod faults;
mod judging;
mod unlisted;

pub use checking::defects;
pub use defect::Defect;
pub use judging::is_sound_package;
