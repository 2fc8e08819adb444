//! Inserts, updates and deletes of a Windows Installer database.
#![tactic(auto)]

mod counting;
mod delete;
mod insert;
mod keys;
mod laws;
mod printing;
mod setting;
mod stored;
mod update;
mod validity;

pub use counting::{count_rows, take_back};
pub use delete::Delete;
pub use insert::Insert;
pub use laws::{
    changed_rows_can_be_written, deletes_leave_the_other_rows,
    forbidden_inserts_are_refused_likewise, inserts_add_their_rows, inserts_count_their_texts,
    stored_rows_keep_keys_distinct, updates_keep_keys_distinct,
};
pub use stored::StoredRows;
pub use update::Update;
