//! Code pages by their whole tables.
#![tactic(auto)]

mod highs;
mod laws;
mod page;
mod pairs_932;
mod pairs_936;
mod pairs_949;
mod pairs_950;

pub use laws::ascii_stays;
pub use page::{Reading, WholePage};
