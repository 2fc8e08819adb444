//! Siblings in their order, without recursion.
ghost use Rattle.cfb_entries.specs.Pending.{Above};
ghost use Rattle.cfb_entries.specs.Rules.{IsEntryError};
ghost use Rattle.cfb_medium.specs.declared.error.Error.TheVariants.{InvalidData, Memory};
ghost use Rattle.cfb_tree.specs.Directory.{Siblings};
ghost use Rattle.cfb_tree.specs.EntryViews.{entry_in};
ghost use Rattle.std.specs.Prelude.{length, map, IfErr, List, OnOk, IfOk, ℕ, ◌+◌, ◌++◌, ◌≡◌, ◌≤◌};

use cfb_medium::Error;
use cfb_sectors::NO_STREAM;
use cfb_tree::DirEntry;
use std::alloc::Global;

// Goes down to the first of the siblings that hang at a link, and keeps those that it passes: they come after what hangs on
// their left. `InvalidData` comes only where no siblings hang there.
fn descend(entries: &[DirEntry], link: u32, above: &mut Vec<u32>) -> Result<(), Error>
    ensures answer { (here rest : List ℕ) → Siblings (map entry_in entries.now) link here
        → Above (map entry_in entries.now) above.old.items rest
        → length here + length rest ≤ length entries.now
        → OnOk result (Above (map entry_in entries.now) above.new.items (here ++ rest))
        × IfErr result (λ e. e ≡ Memory) }
    ensures errors { IfErr result IsEntryError }
{
    let mut at = link;
    'down: while at != NO_STREAM {
        if above.len() >= entries.len() {
            return Err(Error::InvalidData);
        }
        let Some(entry) = entries.get(at as usize) else {
            return Err(Error::InvalidData);
        };
        above.push(at)?;
        at = entry.left_sibling;
    }
    Ok(())
}

// The siblings that hang at a link, in their order. `InvalidData` comes only where no siblings hang there.
pub(crate) fn siblings(alloc: Global, entries: &[DirEntry], link: u32) -> Result<Vec<u32>, Error>
    ensures answer { (all : List ℕ) → Siblings (map entry_in entries.now) link all
        → length all ≤ length entries.now → IfOk result (λ ids. ids.items ≡ all)
        × IfErr result (λ e. e ≡ Memory) }
    ensures errors { IfErr result IsEntryError }
{
    let mut ids = Vec::new(alloc);
    let mut above = Vec::new(alloc);
    if let Err(error) = descend(entries, link, &mut above) {
        return Err(error);
    }
    'walk: while let Some(id) = above.pop() {
        if ids.len() >= entries.len() {
            return Err(Error::InvalidData);
        }
        let Some(entry) = entries.get(id as usize) else {
            return Err(Error::InvalidData);
        };
        ids.push(id)?;
        if let Err(error) = descend(entries, entry.right_sibling, &mut above) {
            return Err(error);
        }
    }
    Ok(ids)
}
