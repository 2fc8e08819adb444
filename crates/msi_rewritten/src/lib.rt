//! What becomes of the tree that stores a package where the stream of one table is written anew.
#![tactic(auto)]

mod laws;

pub use laws::{
    inserts_rewrite_their_table, other_streams_stay, rewritten_packages_are_stored,
    rewritten_texts_are_counted, storages_stay, updated_and_deleted_rows_come_back,
    updates_and_deletes_rewrite_their_table,
};
