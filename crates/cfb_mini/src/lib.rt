//! Mini sectors of a compound file: short streams, over the mini FAT and the mini stream.
#![tactic(auto)]

mod chain_growth;
mod changing;
mod covering;
mod directory_entries;
mod fat_growth;
mod freeing;
mod husk;
mod laws;
mod lending;
mod links;
mod mini_allocator;
mod mini_fat;
mod next_sector;
mod number_writes;
mod numbers;
mod places;
mod reading;
mod stream_growth;
mod writing;

pub use husk::MiniHusk;
pub use laws::mini_sectors_are_parts;
pub use links::MiniLinks;
pub use mini_allocator::MiniAllocator;
