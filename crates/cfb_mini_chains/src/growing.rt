//! Mini sectors that a chain takes in, with their bytes ([MS-CFB] 2.4).
ghost use Rattle.cfb_chains.specs.ChainCalls.{IsInvalidOrFull};
ghost use Rattle.cfb_fat.specs.Calls.{FatErrorContract};
ghost use Rattle.cfb_fat.specs.Tables.{has_failed_here, orderly_of};
ghost use Rattle.cfb_medium.specs.declared.error.Error.TheVariants.{Full, InvalidData};
ghost use Rattle.cfb_mini.specs.Changing.{HasUniqueOwners, LacksMiniSectors};
ghost use Rattle.cfb_mini.specs.LinkViews.{minis_of};
ghost use Rattle.cfb_mini.specs.Minis.{IsMiniChain};
ghost use Rattle.cfb_mini.specs.Views.{allocator_of, mini_fat_of, mini_stream_len, MiniMatchesBytes, OnlyReadsMini};
ghost use Rattle.cfb_mini_chains.specs.MiniGrowing.{MiniAppends};
ghost use Rattle.cfb_chain_io.specs.ChainEffects.{KeepsFileInvariants};
ghost use Rattle.cfb_sectors.specs.Sectors.{greatest_regular};
ghost use Rattle.std.specs.Prelude.{false, length, true, IsErrOf, IsTrue, List, OnErr, OnOk, ℕ, ◌*◌, ◌+◌, ◌-◌, ◌<◌, ◌≡◌, ◌⊎◌};

use cfb_medium::{Error, Medium};
use cfb_mini::{MiniAllocator, MiniLinks};

// Takes mini sectors in behind the last one, until there are so many, and writes these bytes there, which fill them. After an error
// nothing is changed, or it has failed.
pub(crate) fn append<F: Medium>(
    mini: &mut MiniAllocator<F>,
    links: &mut MiniLinks,
    bytes: &[u8],
    count: usize,
) -> Result<(), Error>
    requires whole { 64 * length (minis_of links.old) + length bytes.now ≡ 64 * count }
    ensures appended { OnOk result ((own : ℕ → List ℕ) → HasUniqueOwners mini.old own
        → IsMiniChain (mini_fat_of mini.old) (mini_stream_len mini.old) (minis_of links.old)
        → MiniAppends bytes.now mini.old mini.new links.old links.new own) }
    ensures kept { OnErr result (has_failed_here (allocator_of mini.new) ≡ false
        → minis_of links.new ≡ minis_of links.old) }
    ensures refused_only_if { IsErrOf result InvalidData → (own : ℕ → List ℕ)
        → HasUniqueOwners mini.old own
        → IsMiniChain (mini_fat_of mini.old) (mini_stream_len mini.old) (minis_of links.old)
        → IsTrue (orderly_of (allocator_of mini.old)) → ⊥ }
    ensures full_only_if { IsErrOf result Full → has_failed_here (allocator_of mini.new) ≡ false
        → MiniMatchesBytes mini.old
        → LacksMiniSectors (count - length (minis_of links.old)) mini.old
        ⊎ (greatest_regular < length (minis_of links.old)) }
    ensures after_error { OnErr result ((has_failed_here (allocator_of mini.new) ≡ true)
        ⊎ OnlyReadsMini mini.old mini.new) }
    ensures invariants { KeepsFileInvariants (allocator_of mini.old) (allocator_of mini.new) }
    ensures error_contract { FatErrorContract IsInvalidOrFull result (allocator_of mini.old)
        (allocator_of mini.new) }
{
    let end = links.len();
    if let Err(error) = mini.lengthen_mini_chain(links, count) {
        return Err(error);
    }
    match mini.overwrite_mini_chain(links, end, bytes) {
        Ok(()) => Ok(()),
        Err(error) => {
            mini.fail();
            Err(error)
        }
    }
}
