//! Names of columns.

/// A column by the name of its table and its own.
#[derive(Clone, Copy, Debug, PartialEq, Eq, PartialOrd, Ord)]
pub struct ColumnName<'a> {
    /// The name of its table.
    pub table: &'a str,
    /// Its own name.
    pub column: &'a str,
}
