//! Mini sectors that are taken into use ([MS-CFB] 2.4).
ghost use Rattle.cfb_chains.specs.ChainCalls.{IsInvalidOrFull};
ghost use Rattle.cfb_chains.specs.Grown.{IsChainInTable};
ghost use Rattle.cfb_fat.specs.Calls.{FatErrorContract};
ghost use Rattle.cfb_fat.specs.Tables.{has_failed_here, OnlyReadsAllocator, IsJustifiedBySectors};
ghost use Rattle.cfb_medium.specs.Calls.{IsFaultOrInvalidInputIf};
ghost use Rattle.cfb_medium.specs.declared.error.Error.TheVariants.{Full, InvalidData};
ghost use Rattle.cfb_mini.specs.NumberWrites.{Enters, LiesSo};
ghost use Rattle.cfb_mini.specs.LinkViews.{minis_of};
ghost use Rattle.cfb_mini.specs.NumberViews.{numbers_of};
ghost use Rattle.cfb_mini.specs.NextSector.{linked_behind, linked_pair, HasNumber, IsFreeInside, AllocatesMiniSector};
ghost use Rattle.cfb_chain_io.specs.ChainEffects.{KeepsFileInvariants, HasDataChain};
ghost use Rattle.cfb_sectors.specs.Sectors.{greatest_regular};
ghost use Rattle.std.specs.Prelude.{false, length, true, IfErr, IfOk, IsErrOf, IsTrue, OnErr, OnOk, ℕ, ◌<◌, ◌≡◌, ◌↔◌, ◌⊎◌};

use crate::MiniLinks;
use crate::mini_fat::MiniFat;
use crate::number_writes::set_number;
use cfb_fat::Allocator;
use cfb_medium::{Error, Medium};
use cfb_sectors::{END_OF_CHAIN, HasSectors};

// Whether the mini FAT has a number for a mini sector, where there is one.
fn has_number(mini_fat: &MiniFat, mini_sector_id: Option<u32>) -> bool
    ensures { IsTrue result ↔ HasNumber (numbers_of mini_fat.now.numbers) mini_sector_id }
{
    match mini_sector_id {
        Some(id) => (id as usize) < mini_fat.numbers.items().len(),
        None => true,
    }
}

// Links a mini sector behind a mini chain's last one, where there is one; it is the last then. `InvalidData` where the FAT
// hasn't the mini FAT's chain. After an error it has failed.
fn link_behind<F: Medium>(
    allocator: &mut Allocator<F>,
    mini_fat: &mut MiniFat,
    last: Option<u32>,
    taken: u32,
) -> Result<(), Error>
    requires there { taken < length (numbers_of mini_fat.old.numbers) }
    requires last { HasNumber (numbers_of mini_fat.old.numbers) last }
    ensures enters { OnOk result (HasDataChain allocator.old mini_fat.old.links
        → Enters (linked_pair last taken) allocator.old allocator.new mini_fat.old mini_fat.new) }
    ensures set { OnOk result (numbers_of mini_fat.new.numbers
        ≡ linked_behind (numbers_of mini_fat.old.numbers) last taken) }
    ensures lies { LiesSo mini_fat.old mini_fat.new }
    ensures refused_only_if { IsErrOf result InvalidData
        → HasDataChain allocator.old mini_fat.old.links → ⊥ }
    ensures not_failed { OnOk result (has_failed_here allocator.new ≡ false) }
    ensures when_failed { OnErr result (has_failed_here allocator.new ≡ true) }
    ensures invariants { KeepsFileInvariants allocator.old allocator.new }
    ensures cause { IfErr result (IsJustifiedBySectors allocator.old allocator.new) }
    ensures errors { IfErr result (λ e. IsFaultOrInvalidInputIf ⊥ e ⊎ (e ≡ InvalidData)) }
{
    if let Err(error) = set_number(allocator, mini_fat, taken, END_OF_CHAIN) {
        return Err(error);
    }
    let Some(last) = last else {
        return Ok(());
    };
    if let Err(error) = set_number(allocator, mini_fat, last, taken) {
        return Err(error);
    }
    Ok(())
}

// Takes the first free mini sector of the mini stream into use, behind a mini chain's last one or as its first; `false` where
// none is free, and then nothing is changed. `InvalidData` where the mini FAT hasn't the last one, and then nothing is
// changed, or the FAT hasn't the mini FAT's chain. `Full` where the mini chain has as many mini sectors as there are numbers.
pub(crate) fn extend_minis<F: Medium>(
    allocator: &mut Allocator<F>,
    mini_fat: &mut MiniFat,
    links: &mut MiniLinks,
) -> Result<bool, Error>
    ensures takes { IfOk result (λ took. took ≡ true → HasDataChain allocator.old mini_fat.old.links
        → IsChainInTable (numbers_of mini_fat.old.numbers) (minis_of links.old)
        → AllocatesMiniSector allocator.old allocator.new mini_fat.old mini_fat.new
        (minis_of links.old)
        (minis_of links.new)) }
    ensures none { IfOk result (λ took. took ≡ false
        → OnlyReadsAllocator allocator.old allocator.new × (minis_of links.new ≡ minis_of links.old)
        × (numbers_of mini_fat.new.numbers ≡ numbers_of mini_fat.old.numbers)
        × ((n : ℕ) → IsFreeInside mini_fat.old n → ⊥)) }
    ensures kept { OnErr result (minis_of links.new ≡ minis_of links.old) }
    ensures lies { LiesSo mini_fat.old mini_fat.new }
    ensures refused_only_if { IsErrOf result InvalidData
        → HasDataChain allocator.old mini_fat.old.links
        → IsChainInTable (numbers_of mini_fat.old.numbers) (minis_of links.old) → ⊥ }
    ensures full_only_if { IsErrOf result Full → greatest_regular < length (minis_of links.old) }
    ensures after_error { OnErr result ((has_failed_here allocator.new ≡ true)
        ⊎ (numbers_of mini_fat.new.numbers ≡ numbers_of mini_fat.old.numbers)) }
    ensures invariants { KeepsFileInvariants allocator.old allocator.new }
    ensures error_contract { FatErrorContract IsInvalidOrFull result allocator.old allocator.new }
{
    if allocator.is_failed() {
        return Err(Error::Failed);
    }
    if let Err(error) = links.reserve_one() {
        return Err(error);
    }
    let last = links.last();
    if !has_number(mini_fat, last) {
        return Err(Error::InvalidData);
    }
    let Some(taken) = mini_fat.find_inside() else {
        return Ok(false);
    };
    if let Err(error) = link_behind(allocator, mini_fat, last, taken) {
        return Err(error);
    }
    links.push_reserved(taken);
    Ok(true)
}
