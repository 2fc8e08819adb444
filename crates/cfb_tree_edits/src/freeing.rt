//! Streams that give up their sectors ([MS-CFB] 2.3, 2.4).
ghost use Rattle.cfb_chains.specs.ChainCalls.{IsInvalid};
ghost use Rattle.cfb_fat.specs.Calls.{FatErrorContract};
ghost use Rattle.cfb_fat.specs.Tables.{has_failed_here, orderly_of};
ghost use Rattle.cfb_tree_edits.specs.Freeing.{FreesStream, HasFileInvariant};
ghost use Rattle.cfb_tree_edits.specs.Live.{live_of};
ghost use Rattle.cfb_directory.specs.Views.{entries_held};
ghost use Rattle.cfb_medium.specs.declared.error.Error.TheVariants.{InvalidData};
ghost use Rattle.cfb_mini.specs.Changing.{FreesMiniSectors, FreesChain, HasUniqueOwners, KeepsOwnership};
ghost use Rattle.cfb_mini.specs.Minis.{IsMiniChain};
ghost use Rattle.cfb_mini.specs.Views.{allocator_of, directory_of, mini_fat_of, mini_stream_len};
ghost use Rattle.cfb_chain_io.specs.ChainEffects.{KeepsFileInvariants};
ghost use Rattle.cfb_ownership.specs.Held.{OwnerHasStream};
ghost use Rattle.cfb_ownership.specs.Owners.{first_of, Owners};
ghost use Rattle.cfb_tree.specs.Directory.{Entry};
ghost use Rattle.std.specs.Prelude.{length, slice_get, true, IsErrOf, IsTrue, List, OnErr, OnOk, Some, ℕ, ◌<◌, ◌≡◌, ◌⊎◌};

use cfb_medium::{Error, Medium};
use cfb_mini::MiniAllocator;
use cfb_sectors::{HasSectors, MINI_STREAM_CUTOFF};

// Frees the mini sectors of the mini chain that begins there. After an error nothing is changed, or the file has failed.
fn free_short<F: Medium>(mini: &mut MiniAllocator<F>, start: u32) -> Result<(), Error>
    ensures freed { OnOk result ((own : ℕ → List ℕ) (minis : List ℕ) → HasUniqueOwners mini.old own
        → IsMiniChain (mini_fat_of mini.old) (mini_stream_len mini.old) minis
        → start ≡ first_of minis → FreesMiniSectors minis mini.old mini.new own) }
    ensures refused_only_if { IsErrOf result InvalidData → (own : ℕ → List ℕ) (minis : List ℕ)
        → HasUniqueOwners mini.old own
        → IsMiniChain (mini_fat_of mini.old) (mini_stream_len mini.old) minis
        → start ≡ first_of minis → ⊥ }
    ensures after_error { OnErr result ((has_failed_here (allocator_of mini.new) ≡ true)
        ⊎ KeepsOwnership mini.old mini.new) }
    ensures invariants { KeepsFileInvariants (allocator_of mini.old) (allocator_of mini.new) }
    ensures error_contract { FatErrorContract IsInvalid result (allocator_of mini.old)
        (allocator_of mini.new) }
{
    if mini.directory().allocator().is_failed() {
        return Err(Error::Failed);
    }
    let mut links = match mini.open_mini_chain(start) {
        Ok(links) => links,
        Err(error) => return Err(error),
    };
    if let Err(error) = mini.free_mini_chain(&mut links) {
        return Err(error);
    }
    Ok(())
}

// Frees the sectors of the chain that begins there. After an error nothing is changed, or the file has failed.
fn free_long<F: Medium>(mini: &mut MiniAllocator<F>, start: u32) -> Result<(), Error>
    ensures freed { OnOk result
        ((own : ℕ → List ℕ) (key : ℕ) → HasUniqueOwners mini.old own → 2 < key
        → start ≡ first_of (own key) → FreesChain key mini.old mini.new own) }
    ensures refused_only_if { IsErrOf result InvalidData → (own : ℕ → List ℕ) (key : ℕ)
        → HasUniqueOwners mini.old own → start ≡ first_of (own key)
        → IsTrue (orderly_of (allocator_of mini.old)) → ⊥ }
    ensures after_error { OnErr result ((has_failed_here (allocator_of mini.new) ≡ true)
        ⊎ KeepsOwnership mini.old mini.new) }
    ensures invariants { KeepsFileInvariants (allocator_of mini.old) (allocator_of mini.new) }
    ensures error_contract { FatErrorContract IsInvalid result (allocator_of mini.old)
        (allocator_of mini.new) }
{
    if mini.directory().allocator().is_failed() {
        return Err(Error::Failed);
    }
    let mut links = match mini.directory().allocator().open_chain(start) {
        Ok(links) => links,
        Err(error) => return Err(error),
    };
    if let Err(error) = mini.free_chain(&mut links) {
        return Err(error);
    }
    Ok(())
}

/// Frees the sectors or mini sectors of the stream that has this entry, which stays as it is. After an error nothing is changed,
/// or the file has failed.
pub fn free_stream<F: Medium>(mini: &mut MiniAllocator<F>, id: u32) -> Result<(), Error>
    requires { id < length (entries_held (directory_of mini.old)) }
    ensures freed { OnOk result ((who : Owners) (e : Entry) (content : List ℕ)
        → HasFileInvariant mini.old who
        → slice_get (entries_held (directory_of mini.old)) id ≡ Some e
        → OwnerHasStream (live_of mini.old) who id e content
        → FreesStream id mini.old mini.new who) }
    ensures refused_only_if { IsErrOf result InvalidData
        → (who : Owners) (e : Entry) (content : List ℕ)
        → HasFileInvariant mini.old who
        → slice_get (entries_held (directory_of mini.old)) id ≡ Some e
        → OwnerHasStream (live_of mini.old) who id e content → ⊥ }
    ensures after_error { OnErr result ((has_failed_here (allocator_of mini.new) ≡ true)
        ⊎ KeepsOwnership mini.old mini.new) }
    ensures invariants { KeepsFileInvariants (allocator_of mini.old) (allocator_of mini.new) }
    ensures error_contract { FatErrorContract IsInvalid result (allocator_of mini.old)
        (allocator_of mini.new) }
{
    let entry = mini.directory().dir_entry(id);
    let start = entry.start_sector;
    if entry.stream_len < u64::from(MINI_STREAM_CUTOFF) {
        return free_short(mini, start);
    }
    free_long(mini, start)
}
