//! The names that a command file knows.
use std::fmt;

/// A kind of names.
#[derive(Clone, Copy, Debug, PartialEq, Eq)]
pub enum Names {
    /// Of commands.
    Ops,
    /// Of fields of the summary.
    Fields,
    /// Of categories of texts.
    Categories,
    /// Of keys of a column.
    ColumnKeys,
    /// Of operators.
    Operators,
    /// Of types of columns.
    Types,
}

impl Names {
    /// All of them.
    pub fn all(self) -> &'static [&'static str] {
        match self {
            Names::Ops => OPS,
            Names::Fields => FIELDS,
            Names::Categories => CATEGORIES,
            Names::ColumnKeys => COLUMN_KEYS,
            Names::Operators => OPERATORS,
            Names::Types => TYPES,
        }
    }

    /// Whether a name is one of them.
    pub fn has(self, name: &str) -> bool {
        self.all().iter().any(|known| *known == name)
    }

    // What is said where a name is none of them.
    pub(crate) fn none(self) -> &'static str {
        match self {
            Names::Ops => "no command is called ",
            Names::Fields => "no summary has a field ",
            Names::Categories => "no category is called ",
            Names::ColumnKeys => "no column has a key ",
            Names::Operators => "no operator is called ",
            Names::Types => "no column has the type ",
        }
    }
}

const OPS: &[&str] = &[
    "create_table",
    "drop_table",
    "columns",
    "insert",
    "update",
    "delete",
    "select",
    "tables",
    "streams",
    "read_stream",
    "write_stream",
    "remove_stream",
    "has_signature",
    "remove_signature",
    "summary",
    "set_summary",
    "codepage",
    "set_codepage",
    "flush",
    "commit",
    "roll_back",
];

const FIELDS: &[&str] = &[
    "title",
    "subject",
    "author",
    "keywords",
    "comments",
    "arch",
    "languages",
    "last_saved_by",
    "uuid",
    "last_printed",
    "creation_time",
    "last_saved_time",
    "page_count",
    "word_count",
    "character_count",
    "creating_application",
    "doc_security",
    "codepage",
];

const CATEGORIES: &[&str] = &[
    "Text",
    "UpperCase",
    "LowerCase",
    "Integer",
    "DoubleInteger",
    "Number",
    "TimeDate",
    "Identifier",
    "Property",
    "Filename",
    "WildCardFilename",
    "Path",
    "Paths",
    "AnyPath",
    "DefaultDir",
    "RegPath",
    "Formatted",
    "FormattedSDDLText",
    "Template",
    "Condition",
    "GUID",
    "Version",
    "Language",
    "Binary",
    "CustomSource",
    "Cabinet",
    "Shortcut",
];

const COLUMN_KEYS: &[&str] = &[
    "name",
    "type",
    "len",
    "key",
    "nullable",
    "localizable",
    "range",
    "category",
    "enum",
    "foreign",
];

const OPERATORS: &[&str] = &[
    "eq", "ne", "lt", "le", "gt", "ge", "and", "or", "not", "add", "sub", "mul", "div", "neg",
    "bitand", "bitor", "bitxor", "bitinv", "shl", "shr",
];

const TYPES: &[&str] = &["int16", "int32", "string", "binary"];

// Writes names with commas between them, each in quotes.
pub(crate) fn write_names<W: fmt::Write>(
    names: &[&'static str],
    f: &mut fmt::Formatter<W>,
) -> fmt::Result {
    for (at, name) in names.iter().enumerate() {
        if at > 0 {
            f.write_str(", ")?;
        }
        write!(f, "\"{name}\"")?;
    }
    Ok(())
}
