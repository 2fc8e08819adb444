//! Packages whose pool counts just the uses that their cells make.
#![tactic(auto)]

mod heads;
mod laws;

pub use heads::{are_texts_used, recounted_stream};
pub use laws::recounted_packages_are_sound;
