//! Names of tables, one after the other.
#![tactic(auto, unfolding(crate::specs::Lists::tables_left))]

ghost use Rattle.std.specs.Iterator.{YieldsFirst, item_count};
ghost use Rattle.std.specs.Prelude.{◌≡◌, map, string_bytes, IfErr, IfOk};
ghost use Rattle.std.specs.Rc.{rc_value};
ghost use Rattle.cfb_medium.specs.declared.error.Error.TheVariants.{Memory};
ghost use Rattle.msi.specs.Lists.{tables_left};
ghost use Rattle.msi_tables.specs.Held.{heading_of};

use cfb_medium::Error;
use msi_tables::Table;
use std::alloc::Global;
use std::collections::VecDeque;
use std::iter::ExactSizeIterator;
use std::rc::Rc;

/// The names of tables that are still to come. They were made by the call that gave them, so that going on takes no memory. A clone has
/// the same names to come.
#[derive(Clone, Drop)]
pub struct Tables {
    left: VecDeque<String>,
}

impl Tables {
    /// The names of these tables, in their order. The one error is `Memory`.
    pub(crate) fn new(alloc: Global, tables: &[Rc<Table>]) -> Result<Tables, Error>
        ensures names { IfOk result (λ it. map string_bytes (tables_left it)
            ≡ map (λ h. h.name) (map (λ t. heading_of (rc_value t)) tables.now)) }
        ensures errors { IfErr result (λ e. e ≡ Memory) }
    {
        let names = names_of(alloc, tables)?;
        Ok(Tables {
            left: VecDeque::from_vec(names),
        })
    }
}

// Copies of the names.
fn names_of(alloc: Global, tables: &[Rc<Table>]) -> Result<Vec<String>, Error>
    ensures ok { IfOk result (λ names. map string_bytes names.items
        ≡ map (λ h. h.name) (map (λ t. heading_of (rc_value t)) tables.now)) }
    ensures errors { IfErr result (λ e. e ≡ Memory) }
{
    let mut names = Vec::new(alloc);
    for table in tables {
        names.push(String::from_str(alloc, table.name())?)?;
    }
    Ok(names)
}

impl Iterator for Tables {
    type Item = String;

    ghost next_gives = { YieldsFirst tables_left };

    ghost remaining = { item_count tables_left };

    fn next(&mut self) -> Option<String> {
        self.left.pop_front()
    }
}

impl ExactSizeIterator for Tables {
    fn len(&self) -> usize {
        self.left.len()
    }
}
