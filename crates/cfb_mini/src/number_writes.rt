//! Numbers of the mini FAT that change, and mini chains that are freed ([MS-CFB] 2.4).
ghost use Rattle.cfb_chains.specs.ChainCalls.{IsInvalid};
ghost use Rattle.cfb_chains.specs.Changes.{HaveEntry};
ghost use Rattle.cfb_fat.specs.Calls.{FatErrorContract};
ghost use Rattle.cfb_fat.specs.Orderly.{AreBelow};
ghost use Rattle.cfb_fat.specs.Tables.{has_failed_here, IsJustifiedBySectors};
ghost use Rattle.cfb_medium.specs.Calls.{IsFaultOrInvalidInputIf};
ghost use Rattle.cfb_medium.specs.declared.error.Error.TheVariants.{InvalidData};
ghost use Rattle.cfb_mini.specs.NumberWrites.{CutsMinis, Enters, LiesSo};
ghost use Rattle.cfb_mini.specs.LinkViews.{minis_of};
ghost use Rattle.cfb_mini.specs.NumberViews.{numbers_of};
ghost use Rattle.cfb_chain_io.specs.ChainEffects.{KeepsFileInvariants, HasDataChain};
ghost use Rattle.cfb_sectors.specs.Sectors.{free};
ghost use Rattle.std.specs.Prelude.{false, length, slice_set, true, IfErr, IsErrOf, IsTrue, OnErr, OnOk, [], ◌<◌, ◌∷◌, ◌≡◌, ◌≤◌, ◌↔◌, ◌⊎◌};

use crate::MiniLinks;
use crate::mini_fat::MiniFat;
use cfb_chain_io::overwrite_chain;
use cfb_fat::Allocator;
use cfb_medium::{Error, Medium};
use cfb_sectors::{END_OF_CHAIN, FREE_SECTOR, HasSectors};

// Whether each is below a limit.
fn are_below(limit: usize, ids: &[u32]) -> bool
    ensures { IsTrue result ↔ AreBelow limit ids.now }
{
    for id in ids {
        if *id as usize >= limit {
            return false;
        }
    }
    true
}

// Sets a number of the mini FAT, in the file and then in memory. `InvalidData` where the FAT hasn't the mini FAT's chain.
// After an error it has failed.
pub(crate) fn set_number<F: Medium>(
    allocator: &mut Allocator<F>,
    mini_fat: &mut MiniFat,
    mini_sector_id: u32,
    number: u32,
) -> Result<(), Error>
    requires { mini_sector_id < length (numbers_of mini_fat.old.numbers) }
    ensures enters { OnOk result (HasDataChain allocator.old mini_fat.old.links
        → Enters (mini_sector_id ∷ []) allocator.old allocator.new mini_fat.old mini_fat.new) }
    ensures set { OnOk result (numbers_of mini_fat.new.numbers
        ≡ slice_set (numbers_of mini_fat.old.numbers) mini_sector_id number) }
    ensures size { length (numbers_of mini_fat.new.numbers)
        ≡ length (numbers_of mini_fat.old.numbers) }
    ensures lies { LiesSo mini_fat.old mini_fat.new }
    ensures refused_only_if { IsErrOf result InvalidData
        → HasDataChain allocator.old mini_fat.old.links → ⊥ }
    ensures not_failed { OnOk result (has_failed_here allocator.new ≡ false) }
    ensures when_failed { OnErr result (has_failed_here allocator.new ≡ true) }
    ensures invariants { KeepsFileInvariants allocator.old allocator.new }
    ensures cause { IfErr result (IsJustifiedBySectors allocator.old allocator.new) }
    ensures errors { IfErr result (λ e. IsFaultOrInvalidInputIf ⊥ e ⊎ (e ≡ InvalidData)) }
{
    let bytes = number.to_le_bytes();
    if let Err(error) = overwrite_chain(
        allocator,
        &mini_fat.links,
        4 * mini_sector_id as u64,
        &bytes,
    ) {
        return Err(error);
    }
    mini_fat.numbers.set(mini_sector_id as usize, number);
    Ok(())
}

// Sets the number of each of these mini sectors. `InvalidData` where the FAT hasn't the mini FAT's chain. After an error it
// has failed.
fn set_numbers<F: Medium>(
    allocator: &mut Allocator<F>,
    mini_fat: &mut MiniFat,
    mini_sector_ids: &[u32],
    number: u32,
) -> Result<(), Error>
    requires live { has_failed_here allocator.old ≡ false }
    requires there { AreBelow (length (numbers_of mini_fat.old.numbers)) mini_sector_ids.now }
    ensures enters { OnOk result (HasDataChain allocator.old mini_fat.old.links
        → Enters mini_sector_ids.now allocator.old allocator.new mini_fat.old mini_fat.new) }
    ensures set { OnOk result (HaveEntry number (numbers_of mini_fat.new.numbers)
        mini_sector_ids.now) }
    ensures lies { LiesSo mini_fat.old mini_fat.new }
    ensures refused_only_if { IsErrOf result InvalidData
        → HasDataChain allocator.old mini_fat.old.links → ⊥ }
    ensures not_failed { OnOk result (has_failed_here allocator.new ≡ false) }
    ensures when_failed { OnErr result (has_failed_here allocator.new ≡ true) }
    ensures invariants { KeepsFileInvariants allocator.old allocator.new }
    ensures cause { IfErr result (IsJustifiedBySectors allocator.old allocator.new) }
    ensures errors { IfErr result (λ e. IsFaultOrInvalidInputIf ⊥ e ⊎ (e ≡ InvalidData)) }
{
    'set: for id in mini_sector_ids {
        if let Err(error) = set_number(allocator, mini_fat, *id, number) {
            return Err(error);
        }
    }
    Ok(())
}

// Frees mini sectors; the links have none then. `InvalidData` where the mini FAT hasn't one of them, and then nothing is
// changed, or where the FAT hasn't the mini FAT's chain. After any other error it has failed.
pub(crate) fn free_minis<F: Medium>(
    allocator: &mut Allocator<F>,
    mini_fat: &mut MiniFat,
    links: &mut MiniLinks,
) -> Result<(), Error>
    ensures enters { OnOk result (HasDataChain allocator.old mini_fat.old.links
        → Enters (minis_of links.old) allocator.old allocator.new mini_fat.old mini_fat.new) }
    ensures freed { OnOk result (HaveEntry free (numbers_of mini_fat.new.numbers)
        (minis_of links.old)) }
    ensures emptied { OnOk result (minis_of links.new ≡ []) }
    ensures kept { OnErr result (minis_of links.new ≡ minis_of links.old) }
    ensures lies { LiesSo mini_fat.old mini_fat.new }
    ensures refused_only_if { IsErrOf result InvalidData
        → HasDataChain allocator.old mini_fat.old.links
        → AreBelow (length (numbers_of mini_fat.old.numbers)) (minis_of links.old) → ⊥ }
    ensures after_error { OnErr result ((has_failed_here allocator.new ≡ true)
        ⊎ (numbers_of mini_fat.new.numbers ≡ numbers_of mini_fat.old.numbers)) }
    ensures invariants { KeepsFileInvariants allocator.old allocator.new }
    ensures error_contract { FatErrorContract IsInvalid result allocator.old allocator.new }
{
    if allocator.is_failed() {
        return Err(Error::Failed);
    }
    if !are_below(mini_fat.numbers.items().len(), links.mini_sector_ids()) {
        return Err(Error::InvalidData);
    }
    if let Err(error) = set_numbers(allocator, mini_fat, links.mini_sector_ids(), FREE_SECTOR) {
        return Err(error);
    }
    links.clear();
    Ok(())
}

// Ends a mini chain behind so many mini sectors, and frees those behind them. `InvalidData` where the FAT hasn't the mini
// FAT's chain. After an error it has failed.
fn end_behind<F: Medium>(
    allocator: &mut Allocator<F>,
    mini_fat: &mut MiniFat,
    links: &mut MiniLinks,
    count: usize,
) -> Result<(), Error>
    requires live { has_failed_here allocator.old ≡ false }
    requires there { AreBelow (length (numbers_of mini_fat.old.numbers)) (minis_of links.old) }
    requires some { 0 < count }
    requires fewer { count < length (minis_of links.old) }
    ensures cuts { OnOk result (HasDataChain allocator.old mini_fat.old.links
        → CutsMinis count allocator.old allocator.new mini_fat.old mini_fat.new
        (minis_of links.old) (minis_of links.new)) }
    ensures kept { OnErr result (minis_of links.new ≡ minis_of links.old) }
    ensures lies { LiesSo mini_fat.old mini_fat.new }
    ensures refused_only_if { IsErrOf result InvalidData
        → HasDataChain allocator.old mini_fat.old.links → ⊥ }
    ensures when_failed { OnErr result (has_failed_here allocator.new ≡ true) }
    ensures invariants { KeepsFileInvariants allocator.old allocator.new }
    ensures error_contract { FatErrorContract IsInvalid result allocator.old allocator.new }
{
    let last = links.mini_sector_ids()[count - 1];
    if let Err(error) = set_number(allocator, mini_fat, last, END_OF_CHAIN) {
        return Err(error);
    }
    let rest = &links.mini_sector_ids()[count..];
    if let Err(error) = set_numbers(allocator, mini_fat, rest, FREE_SECTOR) {
        return Err(error);
    }
    links.truncate(count);
    Ok(())
}

// Leaves a mini chain so many mini sectors, those at its front, and frees the others. `InvalidData` where the mini FAT hasn't
// one of them, and then nothing is changed, or where the FAT hasn't the mini FAT's chain. After any other error it has failed.
pub(crate) fn cut_minis<F: Medium>(
    allocator: &mut Allocator<F>,
    mini_fat: &mut MiniFat,
    links: &mut MiniLinks,
    count: usize,
) -> Result<(), Error>
    ensures cuts { OnOk result (HasDataChain allocator.old mini_fat.old.links
        → CutsMinis count allocator.old allocator.new mini_fat.old mini_fat.new
        (minis_of links.old) (minis_of links.new)) }
    ensures kept { OnErr result (minis_of links.new ≡ minis_of links.old) }
    ensures lies { LiesSo mini_fat.old mini_fat.new }
    ensures refused_only_if { IsErrOf result InvalidData
        → HasDataChain allocator.old mini_fat.old.links
        → AreBelow (length (numbers_of mini_fat.old.numbers)) (minis_of links.old) → ⊥ }
    ensures after_error { OnErr result ((has_failed_here allocator.new ≡ true)
        ⊎ (numbers_of mini_fat.new.numbers ≡ numbers_of mini_fat.old.numbers)) }
    ensures invariants { KeepsFileInvariants allocator.old allocator.new }
    ensures error_contract { FatErrorContract IsInvalid result allocator.old allocator.new }
{
    if count == 0 {
        return free_minis(allocator, mini_fat, links);
    }
    if allocator.is_failed() {
        return Err(Error::Failed);
    }
    if count >= links.mini_sector_ids().len() {
        return Ok(());
    }
    if !are_below(mini_fat.numbers.items().len(), links.mini_sector_ids()) {
        return Err(Error::InvalidData);
    }
    end_behind(allocator, mini_fat, links, count)
}
