//! The index of a list of places that was read or copied.
ghost use Rattle.cfb_medium.specs.declared.error.Error.TheVariants.{Memory};
ghost use Rattle.std.specs.Prelude.{◌≡◌, ◌+◌, ◌<◌, ◌^◌, ◌++◌, ◌∷◌, [], IfErr, IfOk, List, OnOk, length};
ghost use Rattle.msi_pool_index.specs.Places.{PoolEntry, places_of};
ghost use Rattle.msi_pool_index.specs.PoolIndex.{PoolIndexMatches};
ghost use Rattle.msi_pool_index.specs.PoolParts.{parts_of};

use crate::parts::{StdParts, add_room};
use crate::steps::Steps;
use cfb_medium::Error;
use std::alloc::Global;
use std::collections::{BTreeMap, BTreeSet};

// A list with its index. The one error is Memory.
pub(crate) fn list_with_index(alloc: Global, list: Vec<(String, u16)>) -> Result<StdParts, Error>
    requires { length list.items < 2 ^ 32 }
    ensures list { IfOk result (λ parts. parts.list.items ≡ list.items) }
    ensures index { IfOk result (λ parts. PoolIndexMatches
        (parts_of (places_of parts.list.items) parts.free parts.room 0)) }
    ensures steps { IfOk result (λ parts. parts.steps.count ≡ 0) }
    ensures errors { IfErr result (λ e. e ≡ Memory) }
{
    let (free, room) = index_of(alloc, list.as_slice())?;
    let steps = Steps::none();
    Ok(StdParts {
        list,
        free,
        room,
        steps,
    })
}

// The free places of a list, and those that can take one more use of their text. The one error is Memory.
fn index_of(
    alloc: Global,
    list: &[(String, u16)],
) -> Result<(BTreeSet<u32>, BTreeMap<String, BTreeSet<u32>>), Error>
    requires { length list.now < 2 ^ 32 }
    ensures ok { IfOk result
        (λ index. PoolIndexMatches (parts_of (places_of list.now) index.0 index.1 0)) }
    ensures errors { IfErr result (λ e. e ≡ Memory) }
{
    let mut free = BTreeSet::new(alloc);
    let mut room = BTreeMap::new(alloc);
    for (index, (text, count)) in list.iter().enumerate() {
        note_place(
            alloc,
            &mut free,
            &mut room,
            text.as_str(),
            *count,
            index as u32,
        )?;
    }
    Ok((free, room))
}

// Notes one more place behind the last. The one error is Memory.
fn note_place(
    alloc: Global,
    free: &mut BTreeSet<u32>,
    room: &mut BTreeMap<String, BTreeSet<u32>>,
    text: &str,
    count: u16,
    index: u32,
) -> Result<(), Error>
    ensures ok { OnOk result ((ps : List PoolEntry) → length ps ≡ index → index + 1 < 2 ^ 32
        → PoolIndexMatches (parts_of ps free.old room.old 0)
        → PoolIndexMatches (parts_of (ps ++ record { text = text.now; count = count } ∷ []) free.new
        room.new 0)) }
    ensures errors { IfErr result (λ e. e ≡ Memory) }
{
    if count == 0 {
        let _ = free.insert(index)?;
        return Ok(());
    }
    if count < 65535 {
        add_room(alloc, room, text, index)?;
        return Ok(());
    }
    Ok(())
}
