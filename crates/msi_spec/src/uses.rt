//! Uses of texts, taken from those that a pool counts: so it is judged whether the counts are those of the cells.
ghost use Rattle.std.specs.Prelude.{◌≡◌};
ghost use Rattle.msi_tables.specs.Held.{rows_held};
ghost use Rattle.msi_changes.specs.Laws.{uses_in};
ghost use Rattle.msi_spec.specs.Uses.{cell_uses, has_none, row_uses, TakesUses};

use msi_pool::ValueRef;

// Takes the use that a cell makes. `false` where its place has none left.
fn take_cell(left: &mut [u16], cell: ValueRef) -> bool
    ensures { TakesUses (cell_uses cell) left.old left.new result }
{
    let ValueRef::Str(place) = cell else {
        return true;
    };
    let index = place.number() as usize - 1;
    if index >= left.len() {
        return false;
    }
    if left[index] == 0 {
        return false;
    }
    left[index] -= 1;
    true
}

// Takes the uses that the cells of a row make. `false` where a place has too few left.
fn take_row(left: &mut [u16], row: &[ValueRef]) -> bool
    ensures { TakesUses (row_uses row.now) left.old left.new result }
{
    for cell in row {
        if !take_cell(left, *cell) {
            return false;
        }
    }
    true
}

/// Takes the uses that the cells of rows make from those that are left at each place of the pool, which begin as
/// `StringPool::counts`. `false` where a place has too few left; then some may be taken.
pub fn take_rows(left: &mut [u16], rows: &[Vec<ValueRef>]) -> bool
    ensures { TakesUses (uses_in (rows_held rows.now)) left.old left.new result }
{
    for row in rows {
        if !take_row(left, row) {
            return false;
        }
    }
    true
}

/// Whether no place has a use left.
pub fn are_used_up(left: &[u16]) -> bool
    ensures { result ≡ has_none left.now }
{
    left.iter().all(|count| *count == 0)
}
