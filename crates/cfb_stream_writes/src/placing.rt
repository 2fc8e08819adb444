//! Where an entry tells that its stream lies ([MS-CFB] 2.6.3).
ghost use Rattle.cfb_chains.specs.ChainCalls.{IsInvalidPlace};
ghost use Rattle.cfb_directory.specs.Views.{entries_held};
ghost use Rattle.cfb_fat.specs.Tables.{has_failed_here, version_of, IsJustifiedBySectors};
ghost use Rattle.cfb_medium.specs.Calls.{IsFaultOrInvalidInputIf};
ghost use Rattle.cfb_medium.specs.Versions.{stream_len_mask};
ghost use Rattle.cfb_medium.specs.declared.error.Error.TheVariants.{InvalidData, InvalidInput};
ghost use Rattle.cfb_mini.specs.Changing.{HasUniqueOwners};
ghost use Rattle.cfb_mini.specs.Views.{allocator_of, directory_of};
ghost use Rattle.cfb_chain_io.specs.ChainEffects.{KeepsFileInvariants};
ghost use Rattle.cfb_stream_writes.specs.Moving.{Places};
ghost use Rattle.std.specs.Prelude.{false, length, true, IfErr, IsErrOf, List, OnErr, OnOk, ℕ, ◌<◌, ◌≡◌, ◌⊎◌};

use cfb_directory::EntryChange;
use cfb_medium::{Error, Medium};
use cfb_mini::MiniAllocator;

// Lets an entry tell that its stream begins there and has so many bytes. `InvalidInput` where the size doesn't fit into an entry's
// bytes, `InvalidData` where the directory hasn't the entry. After an error it has failed.
pub(crate) fn set_place<F: Medium>(
    mini: &mut MiniAllocator<F>,
    id: u32,
    start_sector: u32,
    stream_len: u64,
) -> Result<(), Error>
    ensures placed { OnOk result (Places id start_sector stream_len mini.old mini.new) }
    ensures refused_only_if { IsErrOf result InvalidData → (own : ℕ → List ℕ)
        → HasUniqueOwners mini.old own
        → id < length (entries_held (directory_of mini.old)) → ⊥ }
    ensures large { IsErrOf result InvalidInput
        → stream_len_mask (version_of (allocator_of mini.old)) < stream_len }
    ensures not_failed { OnOk result (has_failed_here (allocator_of mini.new) ≡ false) }
    ensures when_failed { OnErr result (has_failed_here (allocator_of mini.new) ≡ true) }
    ensures invariants { KeepsFileInvariants (allocator_of mini.old) (allocator_of mini.new) }
    ensures cause { IfErr result
        (IsJustifiedBySectors (allocator_of mini.old) (allocator_of mini.new)) }
    ensures errors { IfErr result (λ e. IsFaultOrInvalidInputIf ⊥ e ⊎ IsInvalidPlace e) }
{
    if id as usize >= mini.directory().dir_entries().len() {
        mini.fail();
        return Err(Error::InvalidData);
    }
    let change = EntryChange::Place {
        start_sector,
        stream_len,
    };
    if let Err(error) = mini.with_dir_entry_mut(id, change) {
        mini.fail();
        return Err(error);
    }
    Ok(())
}
