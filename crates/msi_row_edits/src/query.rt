//! Queries that change the rows of one table.
use msi_changes::{Delete, Insert, Update};

/// A query that changes the rows of one table.
#[derive(Drop)]
pub(crate) enum RowsQuery<'a> {
    Insert(&'a Insert),
    Update(&'a Update),
    Delete(&'a Delete),
}
