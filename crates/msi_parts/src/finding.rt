//! Tables by their names.
ghost use Rattle.std.specs.Prelude.{◌≡◌, bytes_eq, find, map, option_map};
ghost use Rattle.std.specs.Rc.{rc_value};
ghost use Rattle.msi_parts.specs.Judged.{heading_named};
ghost use Rattle.msi_tables.specs.Held.{heading_of};

use msi_tables::Table;
use std::rc::Rc;

/// The first table of a name. It takes no memory.
pub fn table_named<'a>(tables: &'a [Rc<Table>], name: &str) -> Option<&'a Table>
    ensures { option_map (λ t. heading_of t.now) result
        ≡ heading_named (map (λ t. heading_of (rc_value t)) tables.now) name.now }
{
    match shared_table(tables, name) {
        Some(table) => Some(table),
        None => None,
    }
}

// The same, as it is shared.
fn shared_table<'a>(tables: &'a [Rc<Table>], name: &str) -> Option<&'a Rc<Table>>
    ensures { option_map (λ t. t.now) result
        ≡ find (λ t. bytes_eq (heading_of (rc_value t)).name name.now) tables.now }
{
    tables.iter().find(|table| table.name() == name)
}
