//! Properties of the summary.
ghost use Rattle.std.specs.Prelude.{◌≡◌, ◌∷◌, ◌++◌, [], ℕ, List, map, IfOk, IsErr, OnOk, Some};
ghost use Rattle.idt_rows.specs.Rows.{datum_of};
ghost use Rattle.idt_rows.specs.Rows as datum;
ghost use Rattle.idt_summaries.specs.Reading.{properties_in, row_says};
ghost use Rattle.msi_props.specs.Held.{pair_in};
ghost use Rattle.msi_props.specs.Props.{Property};

use crate::faults::{Refusal, Wanted, wrong};
use crate::rows::{FIRST_ROW, IdtRow};
use idt_rows::Cell;
use idt_summaries::value_in;
use msi_props::PropertyValue;
use msi_texts::CodePage;
use std::alloc::Global;

/// The properties that a summary's file says, in the order of its lines.
#[derive(Drop)]
pub struct SummaryRows {
    /// Each with its number.
    pub properties: Vec<(u32, PropertyValue)>,
    // The line of each.
    pub(crate) lines: Vec<usize>,
}

/// The properties that rows say.
pub(crate) fn read_summary(alloc: Global, rows: &[IdtRow]) -> Result<SummaryRows, Refusal>
    ensures { IfOk result (λ said. properties_in (map (λ row. map datum_of row.items) rows.now)
        ≡ Some (map pair_in said.properties.items)) }
{
    let mut summary = SummaryRows {
        properties: Vec::new(alloc),
        lines: Vec::new(alloc),
    };
    for (at, row) in rows.iter().enumerate() {
        push_row(alloc, at.saturating_add(FIRST_ROW), row, &mut summary)?;
    }
    Ok(summary)
}

// Adds what the row of a line says.
fn push_row(
    alloc: Global,
    line: usize,
    row: &[Cell],
    summary: &mut SummaryRows,
) -> Result<(), Refusal>
    ensures { OnOk result ((said : List (ℕ × Property))
        × (row_says (map datum_of row.now) ≡ Some said)
        × (map pair_in summary.new.properties.items
        ≡ map pair_in summary.old.properties.items ++ said)) }
{
    match row {
        [number, value] => push_cells(alloc, line, number, value, summary),
        _ => wrong(line, 0, Wanted::Property),
    }
}

// The same of its two cells.
fn push_cells(
    alloc: Global,
    line: usize,
    number: &Cell,
    value: &Cell,
    summary: &mut SummaryRows,
) -> Result<(), Refusal>
    ensures { OnOk result ((said : List (ℕ × Property))
        × (row_says (datum_of number.now ∷ datum_of value.now ∷ []) ≡ Some said)
        × (map pair_in summary.new.properties.items
        ≡ map pair_in summary.old.properties.items ++ said)) }
{
    let Cell::Number(number) = number else {
        return wrong(line, 0, Wanted::Property);
    };
    match value {
        Cell::Text(text) => {
            let property = property_of(alloc, line, *number, text)?;
            summary.properties.push(property)?;
            summary.lines.push(line)?;
            Ok(())
        }
        Cell::Null => Ok(()),
        _ => wrong(line, 0, Wanted::Property),
    }
}

// The property that a line says.
fn property_of(
    alloc: Global,
    line: usize,
    number: i32,
    text: &str,
) -> Result<(u32, PropertyValue), Refusal>
    ensures { IfOk result (λ property.
        row_says (datum.number number ∷ datum.text text.now ∷ []) ≡ Some (pair_in property ∷ [])) }
{
    let number = match u32::try_from(number) {
        Ok(number) => number,
        Err(_) => return wrong(line, 0, Wanted::Property),
    };
    match value_in(alloc, number, text)? {
        Some(value) => Ok((number, value)),
        None => no_value(line, number),
    }
}

// What is wanted in place of a text that says no value for its number.
fn no_value(line: usize, number: u32) -> Result<(u32, PropertyValue), Refusal>
    ensures { IsErr result }
{
    match number {
        1 => wrong(line, 1, Wanted::CodePage),
        10..=13 => wrong(line, 1, Wanted::Moment),
        14..=16 | 19 => wrong(line, 1, Wanted::Long),
        _ => wrong(line, 0, Wanted::Property),
    }
}

/// Refuses the first text that the summary's own code page lacks.
pub fn check_summary_page(summary: &SummaryRows) -> Result<(), Refusal> {
    let page = own_page(summary);
    for (at, (_, value)) in summary.properties.iter().enumerate() {
        if let PropertyValue::LpStr(text) = value
            && !page.fits(text)
        {
            return wrong(line_at(summary, at), 1, Wanted::OnPage(page));
        }
    }
    Ok(())
}

/// The line of a property.
pub(crate) fn line_at(summary: &SummaryRows, at: usize) -> usize {
    match summary.lines.get(at) {
        Some(line) => *line,
        None => FIRST_ROW,
    }
}

// The code page that the first property names, else UTF-8.
fn own_page(summary: &SummaryRows) -> CodePage {
    for (number, value) in &summary.properties {
        if let PropertyValue::I2(page) = value
            && *number == 1
            && let Some(page) = CodePage::from_id(i32::from(page.cast_unsigned()))
        {
            return page;
        }
    }
    CodePage::Utf8
}
