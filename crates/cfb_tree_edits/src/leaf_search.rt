//! Objects that hold nothing, below a storage.
ghost use Rattle.cfb_tree_edits.specs.WholeRemoval.{HasEmptyStorage, IsLeafOnWay, IsWayTo};
ghost use Rattle.cfb_medium.specs.declared.error.Error.TheVariants.{InvalidData, Memory};
ghost use Rattle.cfb_siblings.specs.Reading.{ReadBy};
ghost use Rattle.cfb_tree.specs.Directory.{no_entry, Entry};
ghost use Rattle.cfb_tree.specs.EntryViews.{entry_in};
ghost use Rattle.cfb_tree.specs.Names.{CaseTable};
ghost use Rattle.cfb_tree.specs.Objects.{EntriesHoldTree};
ghost use Rattle.cfb_tree.specs.Paths.{Path};
ghost use Rattle.cfb_tree.specs.Tree.{Tree};
ghost use Rattle.std.specs.Prelude.{length, map, slice_get, Bool, IfErr, IfOk, IfSome, List, MatchOption, MatchResult, Some, ℕ, ◌<◌, ◌≡◌, ◌≢◌, ◌⊎◌};

use crate::facts::is_stream;
use cfb_medium::Error;
use cfb_sectors::NO_STREAM;
use cfb_tree::DirEntry;

// Goes down by the links to children, of which `child` is that of storage `top`, to an object that holds nothing; the storages
// that it leaves go on top of those above. Answers the last storage, and the object at its link. `InvalidData` comes only where
// the entries hold no tree with this way; the one other error is `Memory`.
fn go_down(
    entries: &[DirEntry],
    above: &mut Vec<u32>,
    top: u32,
    child: u32,
) -> Result<(u32, u32), Error>
    ensures there { IfOk result (λ it. it.1 < length (map entry_in entries.now)) }
    ensures found { (letters : CaseTable) (reads : ℕ → ℕ → List ℕ → Bool) (tree : Tree)
        (path : Path)
        (e : Entry) → EntriesHoldTree letters (ReadBy reads) (map entry_in entries.now) tree
        → IsWayTo letters (map entry_in entries.now) path above.old.items top
        → slice_get (map entry_in entries.now) top ≡ Some e → e.child ≡ child → child ≢ no_entry
        → MatchResult result (λ it. IsLeafOnWay letters (map entry_in entries.now) path
        above.new.items it.0 it.1) (λ e. e ≡ Memory) }
    ensures errors { IfErr result (λ e. (e ≡ InvalidData) ⊎ (e ≡ Memory)) }
{
    let mut parent = top;
    let mut at = child;
    'down: for _step in 0..entries.len() {
        let Some(entry) = entries.get(at as usize) else {
            return Err(Error::InvalidData);
        };
        if is_stream(entry) {
            return Ok((parent, at));
        }
        if entry.child == NO_STREAM {
            return Ok((parent, at));
        }
        above.push(parent)?;
        parent = at;
        at = entry.child;
    }
    Err(Error::InvalidData)
}

/// The next object that holds nothing below the storage at which a way begins, which leads over the storages above to storage
/// `top`; with the storage to whose link it hangs, to which the way leads then. None where the first storage of the way holds
/// nothing. `InvalidData` comes only where the entries hold no tree with this way; the one other error is `Memory`.
pub(crate) fn next_leaf(
    entries: &[DirEntry],
    above: &mut Vec<u32>,
    top: u32,
) -> Result<Option<(u32, u32)>, Error>
    ensures there { IfOk result (λ leaf. IfSome leaf (λ it. it.1
        < length (map entry_in entries.now))) }
    ensures found { (letters : CaseTable) (reads : ℕ → ℕ → List ℕ → Bool) (tree : Tree)
        (path : Path)
        → EntriesHoldTree letters (ReadBy reads) (map entry_in entries.now) tree
        → IsWayTo letters (map entry_in entries.now) path above.old.items top
        → MatchResult result (λ leaf. MatchOption leaf (HasEmptyStorage letters tree path)
        (λ it. IsLeafOnWay letters (map entry_in entries.now) path above.new.items it.0 it.1))
        (λ e. e ≡ Memory) }
    ensures errors { IfErr result (λ e. (e ≡ InvalidData) ⊎ (e ≡ Memory)) }
{
    let Some(storage) = entries.get(top as usize) else {
        return Err(Error::InvalidData);
    };
    if storage.child != NO_STREAM {
        return match go_down(entries, above, top, storage.child) {
            Ok(leaf) => Ok(Some(leaf)),
            Err(error) => Err(error),
        };
    }
    let Some(parent) = above.pop() else {
        return Ok(None);
    };
    let Some(storage) = entries.get(parent as usize) else {
        return Err(Error::InvalidData);
    };
    match go_down(entries, above, parent, storage.child) {
        Ok(leaf) => Ok(Some(leaf)),
        Err(error) => Err(error),
    }
}
