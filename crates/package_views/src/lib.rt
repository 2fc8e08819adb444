//! Packages of any maker as they are only read: shown, written to a folder, told in part.
#![tactic(auto)]

mod export;
mod extract;
mod fields;
mod folder;
mod grids;
mod json;
mod near;
mod properties;
mod records;
mod show;
mod tree;

pub use export::export_package;
pub use extract::{extract_stream, is_stream_name};
pub use fields::tell_no_field;
pub use properties::{NameFault, get_property, lacks_property, name_fault};
pub use show::{Form, show_package};
