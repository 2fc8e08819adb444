//! The streams of a package's file where a table is dropped.
ghost use Rattle.std.specs.Prelude.{◌≡◌, encode_utf8_all, false, length, IfErr, IsErrOf};
ghost use Rattle.cfb.specs.Views.{mini_of};
ghost use Rattle.cfb_fat.specs.Tables.{has_failed_here, IsJustifiedBySectors};
ghost use Rattle.cfb_medium.specs.declared.error.Error.TheVariants.{Full};
ghost use Rattle.cfb_mini.specs.Views.{allocator_of};
ghost use Rattle.cfb_chain_io.specs.ChainEffects.{KeepsFileInvariants};
ghost use Rattle.msi_row_edits.specs.Edited.{IsEditError};
ghost use Rattle.msi_table_edits.specs.Drops.{RemovesTable, ReplacesRest, ReplacesStreams};
ghost use Rattle.msi_spec.specs.Package.{stream_name};
ghost use Rattle.msi_stored.specs.Room.{IsFullForName};
ghost use Rattle.msi_tables.specs.Schema.{columns_name};

use crate::remaining::SystemBytes;
use cfb::CompoundFile;
use cfb_medium::{Error, Medium};
use msi_row_edits::put_table_bytes;
use msi_texts::encode;
use std::alloc::Global;

/// Gives the streams of _Columns, _Tables and _Validation these bytes, and removes that of the table of a name, where it has
/// one. Errors are those of `put_table_bytes`. Where the first stream is put and the rest isn't done, the file has failed.
pub(crate) fn replace_streams<F: Medium>(
    alloc: Global,
    file: &mut CompoundFile<F>,
    name: &str,
    bytes: &SystemBytes,
) -> Result<(), Error>
    ensures replaces { ReplacesStreams name.now bytes.now.columns.items bytes.now.tables.items
        bytes.now.validation.items result file.old file.new }
    ensures full_only_if { IsErrOf result Full
        → has_failed_here (allocator_of (mini_of file.new)) ≡ false
        → IsFullForName file.old (stream_name columns_name) (length bytes.now.columns.items) }
    ensures invariants { KeepsFileInvariants (allocator_of (mini_of file.old))
        (allocator_of (mini_of file.new)) }
    ensures cause { IfErr result (IsJustifiedBySectors (allocator_of (mini_of file.old))
        (allocator_of (mini_of file.new))) }
    ensures errors { IfErr result IsEditError }
{
    let path = match encode(alloc, name, true) {
        Err(error) => return Err(error),
        Ok(path) => path,
    };
    match put_table_bytes(alloc, file, "_Columns", &bytes.columns) {
        Err(error) => return Err(error),
        Ok(()) => {}
    }
    match replace_rest(alloc, file, name, path.as_str(), bytes) {
        Err(error) => {
            file.fail();
            Err(error)
        }
        Ok(()) => Ok(()),
    }
}

// Gives the other two streams their bytes, and removes that of the table, which has this path.
fn replace_rest<F: Medium>(
    alloc: Global,
    file: &mut CompoundFile<F>,
    name: &str,
    path: &str,
    bytes: &SystemBytes,
) -> Result<(), Error>
    requires { path.now ≡ encode_utf8_all (stream_name name.now) }
    ensures replaces { ReplacesRest name.now bytes.now.columns.items bytes.now.tables.items
        bytes.now.validation.items result file.old file.new }
    ensures invariants { KeepsFileInvariants (allocator_of (mini_of file.old))
        (allocator_of (mini_of file.new)) }
    ensures cause { IfErr result (IsJustifiedBySectors (allocator_of (mini_of file.old))
        (allocator_of (mini_of file.new))) }
    ensures errors { IfErr result IsEditError }
{
    match put_table_bytes(alloc, file, "_Tables", &bytes.tables) {
        Err(error) => return Err(error),
        Ok(()) => {}
    }
    match put_table_bytes(alloc, file, "_Validation", &bytes.validation) {
        Err(error) => return Err(error),
        Ok(()) => {}
    }
    remove_table(file, name, path)
}

// Removes the stream of a table, which has this path, where it has one.
fn remove_table<F: Medium>(file: &mut CompoundFile<F>, name: &str, path: &str) -> Result<(), Error>
    requires { path.now ≡ encode_utf8_all (stream_name name.now) }
    ensures removes { RemovesTable name.now result file.old file.new }
    ensures invariants { KeepsFileInvariants (allocator_of (mini_of file.old))
        (allocator_of (mini_of file.new)) }
    ensures cause { IfErr result (IsJustifiedBySectors (allocator_of (mini_of file.old))
        (allocator_of (mini_of file.new))) }
    ensures errors { IfErr result IsEditError }
{
    if !file.is_stream(path) {
        return Ok(());
    }
    file.remove_stream(path)
}
