//! Chains of mini sectors, read and written from a position on.
#![tactic(auto)]

mod chain;
mod growing;
mod lengths;
mod writes;

pub use chain::MiniChain;
