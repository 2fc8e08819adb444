//! What packages hold, as text: tables and the summary as packages are exported, the names of properties, streams with their digests.
#![tactic(auto)]

mod codepage;
mod headings;
mod laws;
mod losses;
mod moments;
mod names;
mod order;
mod properties;
mod rows;
mod streams;

pub use codepage::codepage_text;
pub use headings::heading_lines;
pub use idt_summaries::summary_text;
pub use laws::{
    different_names_have_different_files, files_stay_in_their_folder,
    numbered_names_have_different_files,
};
pub use losses::{Loss, loss_of_property, loss_of_row};
pub use moments::{moment_in, moment_text};
pub use names::{file_name_of, safe_name};
pub use order::sorted_rows;
pub use properties::property_name;
pub use rows::{has_bytes, row_text, stream_of_row};
pub use streams::{CopyError, StreamFacts, copy_stream, facts_of_stream};
