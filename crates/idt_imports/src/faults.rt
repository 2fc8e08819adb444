//! What is wrong with a file of an exported table.
ghost use Rattle.std.specs.Prelude.{IsErr};

use cfb_medium::Error;
use msi_texts::CodePage;
use std::alloc::{AllocError, AllocFailed};
use std::fmt;

/// What is wanted at a place of a file.
#[derive(Clone, Copy, Debug, PartialEq, Eq)]
pub enum Wanted {
    /// The number of a code page.
    CodePage,
    /// Characters of its code page.
    Text,
    /// No byte order mark.
    NoMark,
    /// Three lines above the rows.
    Heading,
    /// The name of a column.
    ColumnName,
    /// A name that no column before it has.
    OtherName,
    /// 32 columns at most.
    FewerColumns,
    /// A type of a column.
    Type,
    /// The second of these numbers of cells, where the first is there.
    Cells(usize, usize),
    /// The name of a table.
    TableName,
    /// The name of a column that isn't a key yet.
    KeyName,
    /// A key.
    Key,
    /// A value, and not null.
    Value,
    /// A number of two bytes.
    Short,
    /// A number of four bytes.
    Long,
    /// A text of at most so many characters.
    Length(u32),
    /// A text that the code page of the tables has.
    OnPage(CodePage),
    /// The name of a file in the table's folder.
    FileName,
    /// A key that no row before it has.
    OtherKey,
    /// A property of the summary.
    Property,
    /// A moment.
    Moment,
    /// An identifier in braces.
    Identifier,
    /// A processor and languages.
    Template,
}

impl Wanted {
    fn text(self) -> &'static str {
        match self {
            Wanted::CodePage => "the number of a code page that is known",
            Wanted::Text =>
                "UTF-8 without U+FFFD (`msidb export --codepage` reads other pages), or the code page whose number stands first in line 3,",
            Wanted::NoMark => "UTF-8 without a byte order mark (EF BB BF) in front",
            Wanted::Heading => {
                "a heading (names of columns, their types, and the table with its keys)"
            }
            Wanted::ColumnName => "the name of a column (letters, digits, _ and dots)",
            Wanted::OtherName => "a name that no column before it has",
            Wanted::FewerColumns => "a line of 32 names at most",
            Wanted::Type => "a type (s, l, i or v with a width; i2 or i4; capitals take null)",
            Wanted::Cells(_, _) => "another number of cells",
            Wanted::TableName => "the name of a table (letters, digits, _ and dots)",
            Wanted::KeyName => "the name of a column that is no key yet",
            Wanted::Key => "a key",
            Wanted::Value => "a value, since the column takes no null,",
            Wanted::Short => "a whole number from -32767 to 32767",
            Wanted::Long => "a whole number from -2147483647 to 2147483647",
            Wanted::Length(_) => "characters at most",
            Wanted::OnPage(_) => "has",
            Wanted::FileName => "the name of a file without a slash or a dot in front",
            Wanted::OtherKey => "a key that no row before it has",
            Wanted::Property => "the number of a property (1 to 16, 18 or 19) with its value",
            Wanted::Moment => "a moment, as 2024/09/05 08:53:20,",
            Wanted::Identifier => "an identifier in braces",
            Wanted::Template => "a processor and numbers of languages, as x64;1033,1031,",
        }
    }
}

impl fmt::Display for Wanted {
    fn fmt<W: fmt::Write>(&self, f: &mut fmt::Formatter<W>) -> fmt::Result {
        match self {
            Wanted::Length(count) => write!(f, "a text of {count} ")?,
            Wanted::OnPage(page) => write!(f, "a text that code page {} ", page.id())?,
            _ => {}
        }
        f.write_str(self.text())
    }
}

/// A place of a file, and what is wanted there.
#[derive(Clone, Copy, Debug, PartialEq, Eq)]
pub struct Fault {
    /// The line, from 1 on.
    pub line: usize,
    /// The cell of it, from 1 on.
    pub column: usize,
    /// What is wanted.
    pub wanted: Wanted,
}

impl fmt::Display for Fault {
    fn fmt<W: fmt::Write>(&self, f: &mut fmt::Formatter<W>) -> fmt::Result {
        let (line, column, wanted) = (self.line, self.column, self.wanted);
        match wanted {
            Wanted::Cells(there, wanted) => write_cells(line, there, wanted, f),
            _ => write!(f, "line {line}, column {column}: {wanted} is wanted"),
        }
    }
}

// Tells of a line with another number of cells than is wanted.
fn write_cells<W: fmt::Write>(
    line: usize,
    there: usize,
    wanted: usize,
    f: &mut fmt::Formatter<W>,
) -> fmt::Result {
    let noun = if there == 1 { "cell" } else { "cells" };
    let verb = if wanted == 1 { "is" } else { "are" };
    write!(
        f,
        "line {line} has {there} {noun}, and {wanted} {verb} wanted"
    )
}

/// Why a file isn't read.
#[derive(Clone, Copy, Debug, PartialEq, Eq)]
pub enum Refusal {
    /// There is no memory.
    Memory,
    /// Something is wrong with it.
    At(Fault),
}

impl From<AllocError> for Refusal {
    fn from(_: AllocError) -> Refusal {
        Refusal::Memory
    }
}

impl<T: Drop> From<AllocFailed<T>> for Refusal {
    fn from(_: AllocFailed<T>) -> Refusal {
        Refusal::Memory
    }
}

impl From<Error> for Refusal {
    fn from(_: Error) -> Refusal {
        Refusal::Memory
    }
}

// A refusal at a place, whose numbers are from 0 on.
pub(crate) fn wrong<T>(line: usize, column: usize, wanted: Wanted) -> Result<T, Refusal>
    ensures { IsErr result }
{
    Err(Refusal::At(Fault {
        line: line.saturating_add(1),
        column: column.saturating_add(1),
        wanted,
    }))
}
