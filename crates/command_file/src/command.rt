//! What a session is asked for.
use cfb_medium::Timestamp;
use msi_changes::{Delete, Insert, Update};
use msi_columns::Column;
use msi_query::Select;
use msi_texts::{CodePage, LanguageId};
use uuid::Uuid;

/// A command of a session.
#[derive(Drop)]
pub enum Command {
    /// Makes a table of this name with these columns.
    CreateTable(String, Vec<Column>),
    /// Takes a table away, with its rows.
    DropTable(String),
    /// Adds rows to a table.
    Insert(Insert),
    /// Gives cells of a table new values.
    Update(Update),
    /// Takes rows of a table away.
    Delete(Delete),
    /// Reads rows.
    Select(Select),
    /// Asks for the names of the tables.
    Tables,
    /// Asks for the columns of a table.
    Columns(String),
    /// Asks for the names of the streams that hold no tables.
    Streams,
    /// Reads a stream.
    ReadStream(String),
    /// Writes a stream, in place of what it held.
    WriteStream(String, Vec<u8>),
    /// Takes a stream away.
    RemoveStream(String),
    /// Asks whether the package is signed.
    HasSignature,
    /// Takes the signature away.
    RemoveSignature,
    /// Asks for the summary's properties.
    Summary,
    /// Changes the summary.
    SetSummary(SummaryEdit),
    /// Asks for the database's code page.
    Codepage,
    /// Sets the database's code page.
    SetCodepage(CodePage),
    /// Writes what memory keeps back, and publishes nothing.
    Flush,
    /// Publishes the package.
    Commit,
    /// Goes back to the package that was published last.
    RollBack,
}

/// A change of the summary: a field's new value, or none, which clears it.
#[derive(Drop)]
pub enum SummaryEdit {
    /// The title.
    Title(Option<String>),
    /// The subject.
    Subject(Option<String>),
    /// The author.
    Author(Option<String>),
    /// The keywords, in order.
    Keywords(Option<Vec<String>>),
    /// The comments.
    Comments(Option<String>),
    /// The processor for which the package is made.
    Arch(Option<String>),
    /// The languages of the package, in order.
    Languages(Option<Vec<LanguageId>>),
    /// Who saved it last.
    LastSavedBy(Option<String>),
    /// The package's code.
    Uuid(Option<Uuid>),
    /// When it was printed last.
    LastPrinted(Option<Timestamp>),
    /// When it was made.
    CreationTime(Option<Timestamp>),
    /// When it was saved last.
    LastSavedTime(Option<Timestamp>),
    /// The least version of the installer that it needs.
    PageCount(Option<i32>),
    /// Bits that say of which kind the sources are.
    WordCount(Option<i32>),
    /// The number of characters.
    CharacterCount(Option<i32>),
    /// The program that made it.
    CreatingApplication(Option<String>),
    /// How far it is protected against changes.
    DocSecurity(Option<i32>),
    /// The code page of the summary's texts.
    Codepage(CodePage),
}
