//! What a product is made of and installed by: its actions, its media, its streams, its properties and its codes, and the places at which
//! these break the rules of Windows Installer, over its listing in memory.
#![tactic(auto)]

mod actions;
mod again;
mod components;
mod media;
mod products;
mod standard;
mod texts;
mod trees;
mod unused;

pub use actions::unknown_actions;
pub use again::repeated_component_codes;
pub use components::misspelled_component_codes;
pub use media::{files_beyond_media, lost_cabinets};
pub use products::{misgiven_in_summary, misgiven_properties};
pub use standard::STANDARD_ACTIONS;
pub use trees::endless_parents;
pub use unused::unused_streams;
