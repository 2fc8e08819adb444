//! Runs of consecutive sectors with one kind of entry.
ghost use Rattle.cfb_fat_runs.specs.Runs.{entry_in, leading_to, IsLink, IsRight};
ghost use Rattle.cfb_fat_runs.specs.declared.runs.Kind.TheVariants.{Special};
ghost use Rattle.cfb_sectors.specs.Sectors.{free};
ghost use Rattle.std.specs.Prelude.{IsTrue, ℕ, ◌+◌, ◌↔◌, ◌≡◌};

use cfb_sectors::{END_OF_CHAIN, FREE_SECTOR, MAX_REGULAR_SECTOR};

/// What the entries of a run are.
#[derive(Clone, Copy)]
pub(crate) enum Kind {
    /// Each is this number, which is no sector's: "free", a mark, or an invalid one.
    Special(u32),
    /// Each is the sector that follows, and the last one's is this: a sector, or the end of the chain.
    Linked(u32),
}

/// Sectors from the first one up to the next run.
#[derive(Clone, Copy)]
pub(crate) struct Run {
    pub(crate) first: u32,
    pub(crate) kind: Kind,
}

// The kind of a run of one sector that has this entry.
pub(crate) fn kind_of(entry: u32) -> Kind
    ensures right { IsRight result }
    ensures entry { (stop index : ℕ) → stop ≡ index + 1 → entry_in result stop index ≡ entry }
{
    if entry <= MAX_REGULAR_SECTOR {
        return Kind::Linked(entry);
    }
    if entry == END_OF_CHAIN {
        return Kind::Linked(entry);
    }
    Kind::Special(entry)
}

// The kind of the front of a run that is cut in front of a sector.
pub(crate) fn leading(kind: Kind, next: u32) -> Kind
    ensures { result ≡ leading_to next kind }
{
    match kind {
        Kind::Special(number) => Kind::Special(number),
        Kind::Linked(_) => Kind::Linked(next),
    }
}

// Whether a run leads on to the one that begins at this sector, so that both are one.
pub(crate) fn leads_on(kind: Kind, next: u32, then: Kind) -> bool
    ensures { IsTrue result ↔ (kind ≡ leading_to next then) }
{
    match (kind, then) {
        (Kind::Special(number), Kind::Special(other)) => number == other,
        (Kind::Linked(to), Kind::Linked(_)) => to == next,
        _ => false,
    }
}

// Whether all sectors of a run are free.
pub(crate) fn is_free(kind: Kind) -> bool
    ensures { IsTrue result ↔ (kind ≡ Special free) }
{
    match kind {
        Kind::Special(number) => number == FREE_SECTOR,
        Kind::Linked(_) => false,
    }
}

// Whether a run is of the linked kind.
pub(crate) fn is_link(kind: Kind) -> bool
    ensures { IsTrue result ↔ IsLink kind }
{
    match kind {
        Kind::Special(_) => false,
        Kind::Linked(_) => true,
    }
}
