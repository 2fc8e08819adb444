//! Tables in memory, found by their names and put among the others.
ghost use Rattle.std.specs.Prelude.{◌≡◌, ◌++◌, bytes_eq, find, option_map, position, IfErr, IfOk, OnOk};
ghost use Rattle.std.specs.List.{position_or_len};
ghost use Rattle.std.specs.Ordering.{is_lt};
ghost use Rattle.std.specs.Rc.{rc_value};
ghost use Rattle.cfb_medium.specs.declared.error.Error.TheVariants.{Memory};
ghost use Rattle.msi_table_edits.specs.Making.{heading_put};
ghost use Rattle.msi_spec.specs.Package.{table_name_cmp};
ghost use Rattle.msi_schema.specs.Headings.{headings_in};
ghost use Rattle.msi_tables.specs.Held.{heading_of};

use cfb_medium::Error;
use msi_tables::Table;
use std::alloc::Global;
use std::rc::Rc;

/// The first table of a name.
pub(crate) fn named_table<'a>(tables: &'a [Rc<Table>], name: &str) -> Option<&'a Rc<Table>>
    ensures { option_map (λ t. t.now) result
        ≡ find (λ t. bytes_eq (heading_of (rc_value t)).name name.now) tables.now }
{
    tables.iter().find(|table| table.name() == name)
}

/// The tables with one more, where its name belongs. The one error is `Memory`.
pub(crate) fn with_table(
    alloc: Global,
    tables: &[Rc<Table>],
    table: Rc<Table>,
) -> Result<Vec<Rc<Table>>, Error>
    ensures ok { IfOk result (λ all. headings_in all.items
        ≡ heading_put (heading_of (rc_value table)) (headings_in tables.now)) }
    ensures errors { IfErr result (λ e. e ≡ Memory) }
{
    let place = place_of(tables, table.name());
    let mut all = Vec::new(alloc);
    add_tables(&mut all, &tables[..place])?;
    all.push(table)?;
    add_tables(&mut all, &tables[place..])?;
    Ok(all)
}

// How many tables stand before the first whose name is greater.
fn place_of(tables: &[Rc<Table>], name: &str) -> usize
    ensures { result ≡ position_or_len (λ t. is_lt (table_name_cmp name.now
        (heading_of (rc_value t)).name)) tables.now }
{
    match first_behind(tables, name) {
        Some(place) => place,
        None => tables.len(),
    }
}

// The place of the first table whose name is greater.
fn first_behind(tables: &[Rc<Table>], name: &str) -> Option<usize>
    ensures { result ≡ position (λ t. is_lt (table_name_cmp name.now
        (heading_of (rc_value t)).name)) tables.now }
{
    tables.iter().position(|table| name < table.name())
}

// Adds tables to those that are there. The one error is `Memory`.
fn add_tables(all: &mut Vec<Rc<Table>>, tables: &[Rc<Table>]) -> Result<(), Error>
    ensures ok { OnOk result (headings_in all.new.items
        ≡ headings_in all.old.items ++ headings_in tables.now) }
    ensures errors { IfErr result (λ e. e ≡ Memory) }
{
    for table in tables {
        all.push(table.clone()?)?;
    }
    Ok(())
}
