//! Streams of a package's file that are written and removed, and its parts that memory has ahead of their streams.
#![tactic(auto)]

mod checking;
mod names;
mod parts;
mod pieces;
mod signature;
mod writing;

pub use checking::check_changeable;
pub use names::{encoded_stream_name, is_same_name, is_special};
pub use parts::{write_parts, written_parts_are_held};
pub use pieces::write_stream_from;
pub use signature::remove_digital_signature;
pub use writing::{remove_stream, streams_are_written_within, write_stream};
