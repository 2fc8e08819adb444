//! Parts of a JSON text, read exactly or refused: members of objects, numbers, texts, lists, and values of rows.
#![tactic(auto)]

mod lists;
mod members;
mod values;

pub use lists::{borrowed_texts, languages_of, texts_of};
pub use members::{
    are_among, find_text, has_only, integer_of, list_of, member, short_of, text_at, text_of,
    two_of, whole_of,
};
pub use values::{rows_of, value_of};
