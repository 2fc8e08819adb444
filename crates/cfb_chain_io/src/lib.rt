//! Chains of a compound file's sectors as lists of bytes: read, written, made longer and shorter, while all that others own stays.
#![tactic(auto)]

mod header;
mod lengths;
mod places;
mod reading;
mod writing;

pub use header::write_word;
pub use lengths::{free_chain, lengthen_chain, set_chain_len};
pub use reading::read_chain;
pub use writing::{overwrite_chain, write_chain};
