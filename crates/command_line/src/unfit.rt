//! Texts that keep a commit back: of which table or of the summary they are, and which character their code page lacks.
use command_file::{Command, SummaryEdit};
use msi::Package;
use msi_texts::CodePage;
use msi_values::Value;
use package_files::Shown;
use package_reading::codepage_of;
use std::io::Write;

/// The code pages of a package at each moment of a run.
#[derive(Clone, Copy, Debug)]
pub(crate) struct KnownPages {
    now: BothPages,
    committed: BothPages,
}

// The page of the tables, and that of the summary.
#[derive(Clone, Copy, Debug)]
struct BothPages {
    tables: CodePage,
    summary: CodePage,
}

impl KnownPages {
    /// Those of a package before a run.
    pub(crate) fn of(package: &Package<Shown>) -> KnownPages {
        let pages = BothPages {
            tables: codepage_of(package),
            summary: summary_page(package),
        };
        KnownPages {
            now: pages,
            committed: pages,
        }
    }

    /// Takes in that a command was done.
    pub(crate) fn follow(&mut self, command: &Command) {
        match command {
            Command::SetCodepage(page) => self.now.tables = *page,
            Command::SetSummary(SummaryEdit::Codepage(page)) => self.now.summary = *page,
            Command::Commit => self.committed = self.now,
            Command::RollBack => self.now = self.committed,
            _ => {}
        }
    }

    // The page of a text of tables, or of the summary.
    fn page(&self, is_of_summary: bool) -> CodePage {
        if is_of_summary {
            self.now.summary
        } else {
            self.now.tables
        }
    }

    // Whether a text whose origin isn't known is the summary's: the tables' page has it all.
    fn is_of_summary(&self, text: &str) -> bool {
        self.now.tables.fits(text)
    }
}

// A function of its own, since what is told of the call costs time wherever it is seen.
fn summary_page(package: &Package<Shown>) -> CodePage {
    package.summary_info().codepage()
}

/// A commit that is kept back.
#[derive(Clone, Copy)]
pub(crate) struct Kept<'a> {
    /// The package.
    pub named: &'a str,
    /// Its code pages; none where they aren't known.
    pub pages: Option<KnownPages>,
    /// The commands before the commit.
    pub before: &'a [Command],
    /// The number of the commit, counted from 1; none where no file has it.
    pub number: Option<usize>,
    /// Whether the commands are the program's own, and are told without numbers.
    pub is_own: bool,
}

impl<'a> Kept<'a> {
    /// Tells which texts keep it back, and which commands take them.
    pub(crate) fn tell<E: Write>(&self, texts: &[String], err: &mut E) {
        let (mut of_tables, mut of_summary) = (false, false);
        for text in texts {
            if self.tell_text(text, err) {
                of_summary = true;
            } else {
                of_tables = true;
            }
        }
        tell_way(self.named, of_tables, of_summary, err);
    }

    // Tells of a text which character its code page lacks, whose it is, and which command gave it. Whether it is the summary's is given back.
    fn tell_text<E: Write>(&self, text: &str, err: &mut E) -> bool {
        let origin = origin_of(self.before, text);
        let is_of_summary = match (origin, &self.pages) {
            (Some((_, Owner::Summary)), _) => true,
            (Some((_, Owner::Table(_))), _) => false,
            (None, Some(pages)) => pages.is_of_summary(text),
            (None, None) => false,
        };
        self.tell_front(err);
        self.tell_lack(is_of_summary, text, err);
        match origin {
            Some((_, Owner::Table(name))) => tell_owner(name, err),
            None if !is_of_summary => {}
            _ => tell_owner("the summary", err),
        }
        self.tell_command(origin, err);
        is_of_summary
    }

    fn tell_front<E: Write>(&self, err: &mut E) {
        let named = self.named;
        let _ = match self.number {
            Some(number) => write!(
                err,
                "msidb: {named}: command {number} (commit): not committed: "
            ),
            None => write!(err, "msidb: {named}: not committed: "),
        };
    }

    // Tells which character of a text its page lacks.
    fn tell_lack<E: Write>(&self, is_of_summary: bool, text: &str, err: &mut E) {
        match &self.pages {
            Some(pages) => tell_lack(pages.page(is_of_summary), text, err),
            None => {
                let _ = write!(err, "its code page lacks a character of {text:?}");
            }
        }
    }

    // Tells which command gave a text, at the end of the line.
    fn tell_command<E: Write>(&self, origin: Option<(usize, Owner<'_>)>, err: &mut E) {
        let _ = match origin {
            Some((at, _)) if !self.is_own => {
                let number = at.saturating_add(1);
                writeln!(err, " (command {number})")
            }
            _ => writeln!(err, ""),
        };
    }
}

const WAY_OF_TABLES: &str = "`{\"op\":\"set_codepage\",\"id\":65001}` takes all texts of tables";

const WAY_OF_SUMMARY: &str =
    "`{\"op\":\"set_summary\",\"field\":\"codepage\",\"value\":65001}` takes all texts of the summary";

// Tells which commands take texts that a code page lacks.
fn tell_way<E: Write>(named: &str, of_tables: bool, of_summary: bool, err: &mut E) {
    if of_tables {
        let _ = writeln!(err, "msidb: {named}: the command {WAY_OF_TABLES}");
    }
    if of_summary {
        let _ = writeln!(err, "msidb: {named}: the command {WAY_OF_SUMMARY}");
    }
}

// Whose a text is.
#[derive(Clone, Copy)]
enum Owner<'a> {
    // A table's of this name.
    Table(&'a str),
    // The summary's.
    Summary,
}

// The last of these commands that gives a text to a table or to the summary, and to which; its place is counted from 0.
fn origin_of<'a>(commands: &'a [Command], text: &str) -> Option<(usize, Owner<'a>)> {
    let mut found = None;
    for (at, command) in commands.iter().enumerate() {
        if let Some(owner) = owner_by(command, text) {
            found = Some((at, owner));
        }
    }
    found
}

// Whose a text becomes by a command, if it stands there.
fn owner_by<'a>(command: &'a Command, text: &str) -> Option<Owner<'a>> {
    match command {
        Command::Insert(insert) if has_in_rows(insert.new_rows(), text) => {
            Some(Owner::Table(insert.table_name()))
        }
        Command::Update(update) if update.sets().iter().any(|(_, value)| is_text(value, text)) => {
            Some(Owner::Table(update.table_name()))
        }
        Command::SetSummary(edit) if edit_has(edit, text) => Some(Owner::Summary),
        _ => None,
    }
}

fn has_in_rows(rows: &[Vec<Value>], text: &str) -> bool {
    rows.iter()
        .any(|row| row.iter().any(|value| is_text(value, text)))
}

fn is_text(value: &Value, text: &str) -> bool {
    matches!(value, Value::Str(other) if other.as_str() == text)
}

// Whether a change of the summary gives a property this text, or a part of it.
fn edit_has(edit: &SummaryEdit, text: &str) -> bool {
    match edit {
        SummaryEdit::Title(Some(other))
        | SummaryEdit::Subject(Some(other))
        | SummaryEdit::Author(Some(other))
        | SummaryEdit::Comments(Some(other))
        | SummaryEdit::LastSavedBy(Some(other))
        | SummaryEdit::CreatingApplication(Some(other)) => other.as_str() == text,
        SummaryEdit::Arch(Some(part)) => text.starts_with(part.as_str()),
        SummaryEdit::Keywords(Some(words)) => words.iter().any(|word| text.contains(word.as_str())),
        _ => false,
    }
}

fn tell_owner<E: Write>(name: &str, err: &mut E) {
    let _ = write!(err, " of {name}");
}

// Tells which character a page lacks.
fn tell_lack<E: Write>(page: CodePage, text: &str, err: &mut E) {
    let id = page.id();
    let _ = match lacking(page, text) {
        Some(character) => write!(
            err,
            "code page {id} has no {character:?}, which stands in {text:?}"
        ),
        // (a text that is too long for the string pool)
        None => write!(err, "code page {id} doesn't take the text {text:?}"),
    };
}

// The first character that a page lacks.
fn lacking(page: CodePage, text: &str) -> Option<char> {
    for character in text.chars() {
        let mut bytes = [0u8; 4];
        if !page.fits(character.encode_utf8(&mut bytes)) {
            return Some(character);
        }
    }
    None
}
