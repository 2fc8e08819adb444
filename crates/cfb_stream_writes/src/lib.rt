//! The bytes of the streams of a live compound file, changed.
#![tactic(auto)]

mod creating;
mod emptying;
mod finding;
mod lengthening;
mod lengths;
mod moving;
mod outgrowing;
mod overwriting;
mod placing;
mod short_lengths;
mod streams;
mod taking;
mod writing;

pub use creating::{create_stream, is_stream};
pub use emptying::empty_stream;
pub use finding::find_stream;
pub use outgrowing::{can_outgrow, outgrow_stream};
pub use streams::{overwrite_stream, resize_stream};
pub use writing::{overwrite_long_stream, resize_long_stream};
