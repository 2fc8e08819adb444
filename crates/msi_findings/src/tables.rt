//! Tables that a sound package hasn't.
ghost use Rattle.std.specs.Prelude.{◌≡◌, ◌++◌, ◌∷◌, [], IfErr, IfOk, OnOk};
ghost use Rattle.cfb.specs.Streams.{FileHoldsTree};
ghost use Rattle.cfb.specs.Views.{file_case_table, mini_of, OnlyReadsFile};
ghost use Rattle.cfb_fat.specs.Tables.{IsJustifiedBySectors};
ghost use Rattle.cfb_medium.specs.Calls.{IsFaultOrInvalidInputIf};
ghost use Rattle.cfb_medium.specs.declared.error.Error.TheVariants.{Memory};
ghost use Rattle.cfb_mini.specs.Views.{allocator_of};
ghost use Rattle.cfb_tree.specs.Tree.{Tree};
ghost use Rattle.msi_findings.specs.Findings.{misnamed, unread};
ghost use Rattle.msi_schema.specs.Headings.{headings_in};

use cfb::CompoundFile;
use cfb_medium::{Error, ReadMedium};
use msi_parts::are_free_names;
use msi_store::rows_of_table;
use msi_tables::Table;
use std::alloc::Global;
use std::rc::Rc;
use std::slice;

/// The tables whose name is no identifier, can name no stream, or is one of the pool's two, in order. The one error is `Memory`.
pub fn misnamed_tables(alloc: Global, tables: &[Rc<Table>]) -> Result<Vec<Rc<Table>>, Error>
    ensures found { IfOk result (λ found. headings_in found.items
        ≡ misnamed (headings_in tables.now)) }
    ensures errors { IfErr result (λ e. e ≡ Memory) }
{
    let mut found = Vec::new(alloc);
    for table in tables {
        if !are_free_names(slice::from_ref(table)) {
            add(&mut found, table)?;
        }
    }
    Ok(found)
}

/// The tables whose rows can't be read, in order. Each error is a fault. The rows of one table are in memory at a time, and the file is
/// only read.
pub fn unread_tables<F: ReadMedium>(
    alloc: Global,
    file: &mut CompoundFile<F>,
    tables: &[Rc<Table>],
) -> Result<Vec<Rc<Table>>, Error>
    ensures answer { (tree : Tree) → FileHoldsTree file.old tree → IfOk result (λ found.
        headings_in found.items ≡ unread (file_case_table file.old) tree (headings_in tables.now)) }
    ensures only_reads { OnlyReadsFile file.old file.new }
    ensures cause { IfErr result (IsJustifiedBySectors (allocator_of (mini_of file.old))
        (allocator_of (mini_of file.new))) }
    ensures errors { IfErr result (IsFaultOrInvalidInputIf ⊥) }
{
    let mut found = Vec::new(alloc);
    for table in tables {
        match note(alloc, file, table, &mut found) {
            Ok(()) => {}
            Err(error) => return Err(error),
        }
    }
    Ok(found)
}

// Adds a table whose rows can't be read.
fn note<F: ReadMedium>(
    alloc: Global,
    file: &mut CompoundFile<F>,
    table: &Rc<Table>,
    found: &mut Vec<Rc<Table>>,
) -> Result<(), Error>
    ensures answer { (tree : Tree) → FileHoldsTree file.old tree
        → OnOk result (headings_in found.new.items
        ≡ headings_in found.old.items ++ unread (file_case_table file.old) tree
        (headings_in (table.now ∷ []))) }
    ensures only_reads { OnlyReadsFile file.old file.new }
    ensures cause { IfErr result (IsJustifiedBySectors (allocator_of (mini_of file.old))
        (allocator_of (mini_of file.new))) }
    ensures errors { IfErr result (IsFaultOrInvalidInputIf ⊥) }
{
    match rows_of_table(alloc, file, table) {
        Ok(_rows) => Ok(()),
        Err(Error::InvalidData) => add(found, table),
        Err(error) => Err(error),
    }
}

// Adds a table. The one error is `Memory`.
fn add(found: &mut Vec<Rc<Table>>, table: &Rc<Table>) -> Result<(), Error>
    ensures added { OnOk result (headings_in found.new.items ≡ headings_in found.old.items
        ++ headings_in (table.now ∷ [])) }
    ensures errors { IfErr result (λ e. e ≡ Memory) }
{
    found.push(table.clone()?)?;
    Ok(())
}
