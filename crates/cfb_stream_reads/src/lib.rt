//! The bytes of a stream, read: from mini sectors where it is short, else from sectors of the file.
#![tactic(auto)]

mod ahead;
mod opening;
mod reading;
mod reading_ahead;
mod serving;

pub use ahead::ReadAhead;
pub use opening::{StreamLinks, open_stream};
pub use reading::read_stream;
pub use reading_ahead::read_ahead;
pub use serving::{read_bytes, read_whole};
