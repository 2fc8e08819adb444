//! The streams of the three tables that describe others, put one after the other.
ghost use Rattle.std.specs.Prelude.{◌≡◌, false, length, IfErr, IsErrOf, OnOk};
ghost use Rattle.cfb.specs.Views.{mini_of};
ghost use Rattle.cfb_fat.specs.Tables.{has_failed_here, IsJustifiedBySectors};
ghost use Rattle.cfb_medium.specs.declared.error.Error.TheVariants.{Full};
ghost use Rattle.cfb_mini.specs.Views.{allocator_of};
ghost use Rattle.cfb_chain_io.specs.ChainEffects.{KeepsFileInvariants};
ghost use Rattle.msi_row_edits.specs.Edited.{IsEditError};
ghost use Rattle.msi_table_edits.specs.Making.{PutsThree};
ghost use Rattle.msi_table_edits.specs.Putting.{PutsTwo};
ghost use Rattle.msi_spec.specs.Package.{stream_name};
ghost use Rattle.msi_stored.specs.Room.{IsFullForName};
ghost use Rattle.msi_tables.specs.Schema.{columns_name};

use cfb::CompoundFile;
use cfb_medium::{Error, Medium};
use msi_row_edits::put_table_bytes;
use std::alloc::Global;

/// Puts the bytes of _Columns and _Tables as their streams. After an error nothing is changed, or the file has failed: so it has where
/// the first was put, and the second wasn't.
pub(crate) fn put_two<F: Medium>(
    alloc: Global,
    file: &mut CompoundFile<F>,
    columns: &[u8],
    tables: &[u8],
) -> Result<(), Error>
    ensures puts { PutsTwo columns.now tables.now result file.old file.new }
    ensures full_only_if { IsErrOf result Full
        → has_failed_here (allocator_of (mini_of file.new)) ≡ false
        → IsFullForName file.old (stream_name columns_name) (length columns.now) }
    ensures not_failed { OnOk result (has_failed_here (allocator_of (mini_of file.new)) ≡ false) }
    ensures invariants { KeepsFileInvariants (allocator_of (mini_of file.old))
        (allocator_of (mini_of file.new)) }
    ensures cause { IfErr result (IsJustifiedBySectors (allocator_of (mini_of file.old))
        (allocator_of (mini_of file.new))) }
    ensures errors { IfErr result IsEditError }
{
    match put_table_bytes(alloc, file, "_Columns", columns) {
        Err(error) => return Err(error),
        Ok(()) => {}
    }
    match put_table_bytes(alloc, file, "_Tables", tables) {
        Err(error) => {
            file.fail();
            return Err(error);
        }
        Ok(()) => {}
    }
    Ok(())
}

/// Puts the bytes of _Columns, _Tables and _Validation as their streams. After an error nothing is changed, or the file has failed: so it
/// has where the first was put, and another wasn't.
pub(crate) fn put_three<F: Medium>(
    alloc: Global,
    file: &mut CompoundFile<F>,
    columns: &[u8],
    tables: &[u8],
    validation: &[u8],
) -> Result<(), Error>
    ensures puts { PutsThree columns.now tables.now validation.now result file.old file.new }
    ensures full_only_if { IsErrOf result Full
        → has_failed_here (allocator_of (mini_of file.new)) ≡ false
        → IsFullForName file.old (stream_name columns_name) (length columns.now) }
    ensures invariants { KeepsFileInvariants (allocator_of (mini_of file.old))
        (allocator_of (mini_of file.new)) }
    ensures cause { IfErr result (IsJustifiedBySectors (allocator_of (mini_of file.old))
        (allocator_of (mini_of file.new))) }
    ensures errors { IfErr result IsEditError }
{
    match put_two(alloc, file, columns, tables) {
        Err(error) => return Err(error),
        Ok(()) => {}
    }
    match put_table_bytes(alloc, file, "_Validation", validation) {
        Err(error) => {
            file.fail();
            return Err(error);
        }
        Ok(()) => {}
    }
    Ok(())
}
