//! How wide the columns of a table are.
ghost use Rattle.std.specs.Prelude.{◌≡◌, ◌∷◌, map, IfOk, OnOk};
ghost use Rattle.text_columns.specs.Columns.{cell_widths, wider, widths};
ghost use Rattle.text_columns.specs.Raised.{raised};

use crate::cell::Cell;
use std::alloc::{AllocError, Global};

// The width of each column: that of its widest cell, but at most the limit.
pub(crate) fn column_widths(
    alloc: Global,
    heading: &[Cell],
    rows: &[Vec<Cell>],
    limit: usize,
) -> Result<Vec<usize>, AllocError>
    ensures { IfOk result (λ ws. ws.items
        ≡ widths limit (heading.now ∷ map (λ row. row.items) rows.now)) }
{
    let mut widths = Vec::new(alloc);
    widen(&mut widths, heading, limit)?;
    for row in rows {
        widen(&mut widths, row, limit)?;
    }
    Ok(widths)
}

// Makes columns as wide as the cells of a row, or as the limit.
fn widen(widths: &mut Vec<usize>, row: &[Cell], limit: usize) -> Result<(), AllocError>
    ensures { OnOk result (widths.new.items ≡ wider widths.old.items (cell_widths limit row.now)) }
{
    for (place, cell) in row.iter().enumerate() {
        raise(widths, place, cell.width().min(limit))?;
    }
    Ok(())
}

// Makes the column at a place as wide as this. It is one that is there, or the next.
fn raise(widths: &mut Vec<usize>, place: usize, width: usize) -> Result<(), AllocError>
    ensures { OnOk result (widths.new.items ≡ raised widths.old.items place width) }
{
    match widths.get_mut(place) {
        Some(old) => *old = (*old).max(width),
        None => widths.push(width)?,
    }
    Ok(())
}
