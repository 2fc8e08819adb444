//! What a package is to say.
use msi_columns::Column;
use msi_props::PropertyValue;
use msi_texts::CodePage;
use msi_values::Value;

/// A table.
#[derive(Drop)]
pub struct SaidTable {
    /// Its name.
    pub name: String,
    /// Its columns.
    pub columns: Vec<Column>,
    /// Its rows, a value for each column.
    pub rows: Vec<Vec<Value>>,
}

/// A stream that belongs to no table, or holds the bytes of a row.
#[derive(Drop)]
pub struct SaidStream {
    /// Its name.
    pub name: String,
    /// Its bytes.
    pub bytes: Vec<u8>,
}

/// An installer package.
#[derive(Drop)]
pub struct Said {
    /// The code page of its texts.
    pub codepage: CodePage,
    /// Its tables but `_Tables` and `_Columns`, no two of one name.
    pub tables: Vec<SaidTable>,
    /// The properties of its summary, no two of one number.
    pub properties: Vec<(u32, PropertyValue)>,
    /// Its streams, no two of one name.
    pub streams: Vec<SaidStream>,
}
