//! Texts that stand at more places of a pool than their uses need.
use cfb_medium::Error;
use msi_pool::{StringPool, StringRef};
use std::alloc::Global;
use std::collections::BTreeMap;

// The greatest number of a place that a reference can name.
const LAST_PLACE: u32 = 16777215;

// How many uses of its text a place counts at most.
const MOST_USES: u64 = 65535;

// Where a text stands.
#[derive(Clone, Copy, Debug)]
struct Standing {
    // Its least place in use.
    first: u32,
    // How many places in use it has.
    places: u64,
    // How many uses they count.
    uses: u64,
}

/// The least place of each text that stands at more places in use than its uses need, rising.
pub fn texts_twice(alloc: Global, pool: &StringPool) -> Result<Vec<u32>, Error> {
    let standings = standings_in(alloc, pool)?;
    let mut firsts = Vec::new(alloc);
    for it in standings.values() {
        if it.uses.div_ceil(MOST_USES) < it.places {
            firsts.push(it.first)?;
        }
    }
    firsts.sort()?;
    Ok(firsts)
}

// Where each text in use stands.
fn standings_in<'a>(
    alloc: Global,
    pool: &'a StringPool,
) -> Result<BTreeMap<&'a str, Standing>, Error> {
    let mut standings = BTreeMap::new(alloc);
    for index in 0..pool.num_strings() {
        let place = index.saturating_add(1);
        let (text, count) = entry_at(pool, place);
        if count != 0 {
            note(&mut standings, text, place, count)?;
        }
    }
    Ok(standings)
}

// Notes a place in use.
fn note<'a>(
    standings: &mut BTreeMap<&'a str, Standing>,
    text: &'a str,
    place: u32,
    count: u16,
) -> Result<(), Error> {
    let it = standings.entry(text)?.or_insert(Standing {
        first: place,
        places: 0,
        uses: 0,
    });
    it.places = it.places.saturating_add(1);
    it.uses = it.uses.saturating_add(u64::from(count));
    Ok(())
}

/// The text at a place, and how often it is used there; the empty text without a use where no reference names the place.
pub(crate) fn entry_at(pool: &StringPool, place: u32) -> (&str, u16) {
    if place == 0 || LAST_PLACE < place {
        return ("", 0);
    }
    let place = StringRef::new(place);
    (pool.get(place), pool.refcount(place))
}
