//! The bytes of a stream, written over ([MS-CFB] 2.6.3).
ghost use Rattle.cfb_chains.specs.ChainCalls.{IsInvalidPlace};
ghost use Rattle.cfb_chains.specs.LinkViews.{ids_of, links_version};
ghost use Rattle.cfb_fat.specs.Calls.{FatErrorContract};
ghost use Rattle.cfb_fat.specs.Tables.{has_failed_here, version_of};
ghost use Rattle.cfb_tree_edits.specs.Freeing.{HasFileInvariant};
ghost use Rattle.cfb_medium.specs.declared.error.Error.TheVariants.{InvalidData, InvalidInput};
ghost use Rattle.cfb_mini.specs.Changing.{KeepsOwnership};
ghost use Rattle.cfb_mini.specs.Views.{allocator_of};
ghost use Rattle.cfb_chain_io.specs.ChainEffects.{len_of, KeepsFileInvariants, Overwrites};
ghost use Rattle.cfb_ownership.specs.Owners.{stream_owner, Owners};
ghost use Rattle.cfb_stream_writes.specs.Moving.{MovesLong};
ghost use Rattle.std.specs.Prelude.{length, true, IsErrOf, OnErr, OnOk, ℕ, ◌+◌, ◌<◌, ◌≡◌, ◌⊎◌};

use cfb_chain_io::overwrite_chain;
use cfb_chains::Links;
use cfb_medium::{Error, Medium};
use cfb_mini::MiniAllocator;

// Writes over the bytes of a long stream's sectors from a place on. `InvalidInput` where they don't lie in these. After an error
// nothing is changed, or it has failed.
pub(crate) fn overwrite_long<F: Medium>(
    mini: &mut MiniAllocator<F>,
    links: &Links,
    at: u64,
    bytes: &[u8],
) -> Result<(), Error>
    ensures written { OnOk result ((who : Owners) (id : ℕ) → HasFileInvariant mini.old who
        → who.sectors (stream_owner id) ≡ ids_of links.now
        → links_version links.now ≡ version_of (allocator_of mini.old)
        → MovesLong id (ids_of links.now) mini.old mini.new who
        × Overwrites at bytes.now (allocator_of mini.old) (allocator_of mini.new) links.now) }
    ensures refused_only_if { IsErrOf result InvalidData → (who : Owners) (id : ℕ)
        → HasFileInvariant mini.old who
        → who.sectors (stream_owner id) ≡ ids_of links.now
        → links_version links.now ≡ version_of (allocator_of mini.old) → ⊥ }
    ensures past { IsErrOf result InvalidInput → len_of links.now < at + length bytes.now }
    ensures after_error { OnErr result ((has_failed_here (allocator_of mini.new) ≡ true)
        ⊎ KeepsOwnership mini.old mini.new) }
    ensures invariants { KeepsFileInvariants (allocator_of mini.old) (allocator_of mini.new) }
    ensures error_contract { FatErrorContract IsInvalidPlace result (allocator_of mini.old)
        (allocator_of mini.new) }
{
    overwrite_chain(mini.allocator_mut(), links, at, bytes)
}
