//! Pools in which each text stands at as few places as its uses need, and cells that name the places there.
use crate::assembling::empty_pool;
use crate::twice::entry_at;
use cfb_medium::Error;
use msi_pool::{StringPool, StringRef, ValueRef};
use std::alloc::Global;

/// Where the uses of a place go: so many to the first place, all others to the second.
#[derive(Clone, Copy, Debug)]
pub(crate) struct Move {
    first: StringRef,
    left: u16,
    second: StringRef,
}

/// A pool of the same texts and uses, in which each text stands at as few places as its uses need, the least first, and where the uses of
/// each place go, in order. Texts stand there as they first stood in the other. `InvalidInput` where there are too many.
pub(crate) fn joined_pool(
    alloc: Global,
    pool: &StringPool,
) -> Result<(StringPool, Vec<Option<Move>>), Error> {
    let mut joined = empty_pool(alloc, pool.codepage(), pool.long_string_refs())?;
    let mut moves = Vec::new(alloc);
    for index in 0..pool.num_strings() {
        let (text, count) = entry_at(pool, index.saturating_add(1));
        moves.push(counted_move(alloc, &mut joined, text, count)?)?;
    }
    Ok((joined, moves))
}

// Counts so many uses of a text. As many as one place counts go to two at most.
fn counted_move(
    alloc: Global,
    pool: &mut StringPool,
    text: &str,
    count: u16,
) -> Result<Option<Move>, Error> {
    let mut moved = None;
    for _ in 0..count {
        let place = pool.incref(String::from_str(alloc, text)?)?;
        moved = Some(with_use(moved, place));
    }
    Ok(moved)
}

// The same with a use more, at this place.
fn with_use(moved: Option<Move>, place: StringRef) -> Move {
    match moved {
        None => Move {
            first: place,
            left: 1,
            second: place,
        },
        Some(it) if it.first == place => Move {
            left: it.left.saturating_add(1),
            ..it
        },
        Some(it) => Move {
            second: place,
            ..it
        },
    }
}

/// Rows whose cells name the places to which their texts went. `InvalidData` where a place has no use.
pub(crate) fn moved_rows(
    alloc: Global,
    rows: &[Vec<ValueRef>],
    moves: &mut [Option<Move>],
) -> Result<Vec<Vec<ValueRef>>, Error> {
    let mut moved = Vec::new(alloc);
    for row in rows {
        moved.push(moved_row(alloc, row, moves)?)?;
    }
    Ok(moved)
}

fn moved_row(
    alloc: Global,
    row: &[ValueRef],
    moves: &mut [Option<Move>],
) -> Result<Vec<ValueRef>, Error> {
    let mut moved = Vec::new(alloc);
    for cell in row {
        moved.push(match cell {
            ValueRef::Str(place) => ValueRef::Str(next_place(moves, *place)?),
            other => *other,
        })?;
    }
    Ok(moved)
}

// Where the next use of a place goes.
fn next_place(moves: &mut [Option<Move>], place: StringRef) -> Result<StringRef, Error> {
    let index = place.number().saturating_sub(1) as usize;
    match moves.get_mut(index) {
        Some(Some(it)) => Ok(it.next()),
        _ => Err(Error::InvalidData),
    }
}

impl Move {
    // Where the next use goes.
    fn next(&mut self) -> StringRef {
        if self.left == 0 {
            return self.second;
        }
        self.left = self.left.saturating_sub(1);
        self.first
    }
}
