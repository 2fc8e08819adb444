//! What the test programs share: rows of data, media that fail a call or survive stops.
#![tactic(auto)]

mod bytes;
mod counted;
mod failing;
mod printing;
mod row;
mod survivor;
mod told;

pub use bytes::{bytes_at, hex_of, part_of, runs};
pub use counted::{CountedDevice, Made};
pub use failing::FailingMedium;
pub use printing::{Subject, print_rows};
pub use row::{Row, copy_of, yes_or_no};
pub use survivor::Survivor;
pub use told::{named, shown, value_at, with_parts};
