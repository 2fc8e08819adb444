//! Streams that are emptied ([MS-CFB] 2.6.3).
ghost use Rattle.cfb_chains.specs.ChainCalls.{IsInvalid};
ghost use Rattle.cfb_fat.specs.Calls.{FatErrorContract};
ghost use Rattle.cfb_fat.specs.Tables.{has_failed_here};
ghost use Rattle.cfb_medium.specs.declared.error.Error.TheVariants.{InvalidData};
ghost use Rattle.cfb_mini.specs.Changing.{KeepsOwnership};
ghost use Rattle.cfb_mini.specs.Views.{allocator_of};
ghost use Rattle.cfb_chain_io.specs.ChainEffects.{KeepsFileInvariants};
ghost use Rattle.cfb_stream_writes.specs.Streams.{IsNoStream, RewritesStreamById};
ghost use Rattle.std.specs.Prelude.{true, IsErrOf, OnErr, OnOk, [], ◌≡◌, ◌⊎◌};

use crate::placing::set_place;
use cfb_medium::{Error, Medium};
use cfb_mini::MiniAllocator;
use cfb_sectors::{END_OF_CHAIN, HasSectors};
use cfb_tree_edits::free_stream;

/// Takes all bytes of the stream that has this entry: its sectors or mini sectors are free then, and its entry tells of none. Its
/// name and state bits stay. `InvalidData` where no such stream is there, or the file hasn't its sectors. The other errors are
/// `Memory`, `Device`, and `Failed` after an earlier fault. After an error nothing is changed, or the file has failed
/// ([MS-CFB] 2.6.3).
pub fn empty_stream<F: Medium>(mini: &mut MiniAllocator<F>, id: u32) -> Result<(), Error>
    ensures emptied { OnOk result (RewritesStreamById id (λ content. []) mini.old mini.new) }
    ensures refused_only_if { IsErrOf result InvalidData → IsNoStream id mini.old }
    ensures after_error { OnErr result ((has_failed_here (allocator_of mini.new) ≡ true)
        ⊎ KeepsOwnership mini.old mini.new) }
    ensures invariants { KeepsFileInvariants (allocator_of mini.old) (allocator_of mini.new) }
    ensures error_contract { FatErrorContract IsInvalid result (allocator_of mini.old)
        (allocator_of mini.new) }
{
    if mini.directory().allocator().is_failed() {
        return Err(Error::Failed);
    }
    if id as usize >= mini.directory().dir_entries().len() {
        return Err(Error::InvalidData);
    }
    if let Err(error) = free_stream(mini, id) {
        return Err(error);
    }
    if let Err(error) = set_place(mini, id, END_OF_CHAIN, 0) {
        return Err(error);
    }
    Ok(())
}
