//! Chains of a compound file's sectors, over any layer that has a table of them.
#![tactic(auto)]

mod chain;
mod chain_cuts;
mod chain_growth;
mod chain_writes;
mod freeing;
mod growing;
mod laws;
mod links;

pub use chain::Chain;
pub use freeing::FreesChains;
pub use growing::GrowsChains;
pub use laws::{
    freed_sectors_are_in_no_chain, longer_chains_stay_apart, other_chains_stay, other_owners_stay,
    untouched_chains_are_old,
};
pub use links::{Links, chain_in};
