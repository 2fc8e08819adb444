//! Files of exported tables.
ghost use Rattle.std.specs.Prelude.{◌≡◌, ◌∷◌, map, IfOk};
ghost use Rattle.idt_tables.specs.HeadingsOf.{heading_of};
ghost use Rattle.idt_tables.specs.Lines.{lines_in};
ghost use Rattle.idt_imports.specs.Reading.{IsPage, SaysLines, SaysRows};

use crate::columns::IdtColumn;
use crate::faults::{Refusal, Wanted, wrong};
use crate::headings::{columns_of, wrong_types};
use crate::rows::{IdtRow, read_rows};
use crate::summaries::{SummaryRows, read_summary};
use crate::texts::own;
use idt_summaries::whole_of;
use idt_tables::{Heading, lines_of, parts_of, read_heading};
use msi_texts::CodePage;
use std::alloc::Global;

/// An exported table.
#[derive(Drop)]
pub struct IdtTable {
    /// Its name.
    pub name: String,
    /// Its columns, one at least, and a key among them.
    pub columns: Vec<IdtColumn>,
    /// Its rows, no two with one key.
    pub rows: Vec<IdtRow>,
}

/// What a file says.
#[derive(Drop)]
pub enum Imported {
    /// A table.
    Table(IdtTable),
    /// The properties of the summary.
    Summary(SummaryRows),
    /// The code page of the tables.
    Page(CodePage),
}

/// What the text of a file says, or the first place that is wrong.
pub fn read_file(alloc: Global, text: &str) -> Result<Imported, Refusal>
    ensures { IfOk result (λ said. SaysLines said (lines_in text.now)) }
{
    let lines = lines_of(alloc, text)?;
    read_lines(alloc, &lines)
}

fn read_lines(alloc: Global, lines: &[&str]) -> Result<Imported, Refusal>
    ensures { IfOk result (λ said. SaysLines said (map (λ l. l.now) lines.now)) }
{
    if lines.len() < 3 {
        return wrong(lines.len(), 0, Wanted::Heading);
    }
    if lines[0].is_empty() && lines[1].is_empty() {
        return read_page(alloc, lines[2]);
    }
    read_table(alloc, lines[0], lines[1], lines[2], &lines[3..])
}

fn read_table(
    alloc: Global,
    names: &str,
    types: &str,
    keys: &str,
    lines: &[&str],
) -> Result<Imported, Refusal>
    ensures { IfOk result (λ said. SaysLines said
        (names.now ∷ types.now ∷ keys.now ∷ map (λ l. l.now) lines.now)) }
{
    let cells = parts_of(alloc, keys)?.len();
    match read_heading(alloc, names, types, keys)? {
        Some(heading) => with_heading(alloc, &heading, cells, lines),
        None => wrong_types(alloc, types),
    }
}

// What lines say behind a heading.
fn with_heading(
    alloc: Global,
    heading: &Heading<'_>,
    cells: usize,
    lines: &[&str],
) -> Result<Imported, Refusal>
    ensures { IfOk result (λ said. SaysRows said (heading_of heading.now) (map (λ l. l.now) lines.now)) }
{
    let columns = columns_of(alloc, heading, cells)?;
    let rows = read_rows(alloc, &columns, lines)?;
    if *heading.table == *"_SummaryInformation" {
        return Ok(Imported::Summary(read_summary(alloc, &rows)?));
    }
    let name = own(alloc, heading.table)?;
    Ok(Imported::Table(IdtTable {
        name,
        columns,
        rows,
    }))
}

// The code page of `_ForceCodepage.idt`: behind two empty lines, its number with that name.
fn read_page(alloc: Global, line: &str) -> Result<Imported, Refusal>
    ensures { IfOk result IsPage }
{
    let parts = parts_of(alloc, line)?;
    match parts.as_slice() {
        [number, name] if **name == *"_ForceCodepage" => match page_of(number) {
            Some(page) => Ok(Imported::Page(page)),
            None => wrong(2, 0, Wanted::CodePage),
        },
        _ => wrong(0, 0, Wanted::Heading),
    }
}

// The code page of a number.
fn page_of(number: &str) -> Option<CodePage> {
    CodePage::from_id(whole_of(number)?)
}
