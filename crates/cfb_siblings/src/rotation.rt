//! What to link to turn two siblings, so that trees of siblings stay shallow: the lower one takes the place of the upper one.
ghost use Rattle.cfb_siblings.specs.Links.{holder};
ghost use Rattle.cfb_siblings.specs.Places.{HasEntry};
ghost use Rattle.cfb_siblings.specs.Rotations.{IsRotation, LeadsIn, TurnsIn};
ghost use Rattle.cfb_tree.specs.EntryViews.{entry_in};
ghost use Rattle.cfb_tree.specs.CaseTableViews.{case_table_of};
ghost use Rattle.std.specs.Prelude.{map, IfSome};

use crate::links::{Link, NewLink};
use cfb_sectors::NO_STREAM;
use cfb_tree::{CaseMapper, DirEntry};
use std::cmp::Ordering;

/// The links that are to be set so that a sibling takes the place of the one above it, in this order ([MS-CFB] 2.6.4).
#[derive(Clone, Copy, Debug, PartialEq, Eq)]
pub struct Rotation {
    /// The upper one leads to the siblings between the two.
    pub inner: NewLink,
    /// The lower one leads to the upper one.
    pub lowered: NewLink,
    /// The link that led to the upper one leads to the lower one.
    pub raised: NewLink,
}

// A fixed mix of an entry's number. Where no sibling is heavier than the one above it, a tree is as deep as one whose entries came
// in a shuffled order.
fn weight(id: u32) -> u32 {
    let once = (id ^ (id >> 16)).wrapping_mul(0x85EB_CA6B);
    let twice = (once ^ (once >> 13)).wrapping_mul(0xC2B2_AE35);
    twice ^ (twice >> 16)
}

// What raises the left sibling of entry `id`, to which the link leads.
fn raise_left(entries: &[DirEntry], link: Link, id: u32) -> Option<Rotation>
    ensures { IfSome result (IsRotation (map entry_in entries.now) link id) }
{
    let Some(upper) = entries.get(id as usize) else {
        return None;
    };
    let child = upper.left_sibling;
    if child == NO_STREAM {
        return None;
    }
    let Some(lower) = entries.get(child as usize) else {
        return None;
    };
    Some(Rotation {
        inner: NewLink {
            link: Link::Left(id),
            target: lower.right_sibling,
        },
        lowered: NewLink {
            link: Link::Right(child),
            target: id,
        },
        raised: NewLink {
            link,
            target: child,
        },
    })
}

// What raises the right sibling of entry `id`, to which the link leads.
fn raise_right(entries: &[DirEntry], link: Link, id: u32) -> Option<Rotation>
    ensures { IfSome result (IsRotation (map entry_in entries.now) link id) }
{
    let Some(upper) = entries.get(id as usize) else {
        return None;
    };
    let child = upper.right_sibling;
    if child == NO_STREAM {
        return None;
    }
    let Some(lower) = entries.get(child as usize) else {
        return None;
    };
    Some(Rotation {
        inner: NewLink {
            link: Link::Right(id),
            target: lower.left_sibling,
        },
        lowered: NewLink {
            link: Link::Left(child),
            target: id,
        },
        raised: NewLink {
            link,
            target: child,
        },
    })
}

// The link over which a search for the name among the children of storage `parent` comes to entry `id`.
fn link_to(
    letters: &CaseMapper,
    entries: &[DirEntry],
    parent: u32,
    name: &str,
    id: u32,
) -> Option<Link>
    ensures { IfSome result (λ link. HasEntry (map entry_in entries.now) (holder link)
        × LeadsIn (case_table_of letters.now) (map entry_in entries.now) parent link id) }
{
    let Some(storage) = entries.get(parent as usize) else {
        return None;
    };
    let mut link = Link::Child(parent);
    let mut at = storage.child;
    for _step in 0..entries.len() {
        if at == NO_STREAM {
            return None;
        }
        if at == id {
            return Some(link);
        }
        let Some(entry) = entries.get(at as usize) else {
            return None;
        };
        let Some(order) = entry.compare_name(letters, name) else {
            return None;
        };
        match order {
            Ordering::Less => {
                link = Link::Left(at);
                at = entry.left_sibling;
            }
            Ordering::Equal => return None,
            Ordering::Greater => {
                link = Link::Right(at);
                at = entry.right_sibling;
            }
        }
    }
    None
}

/// What raises entry `id`, the child of this name of storage `parent` to which the link leads, above the one that has the link.
/// `None` where it is no heavier than that one, or has none above it.
pub fn plan_rise(
    letters: &CaseMapper,
    entries: &[DirEntry],
    parent: u32,
    name: &str,
    link: Link,
    id: u32,
) -> Option<Rotation>
    ensures { IfSome result
        (TurnsIn (case_table_of letters.now) (map entry_in entries.now) parent) }
{
    if let Link::Child(_) = link {
        return None;
    }
    let above = link.holder();
    if weight(id) <= weight(above) {
        return None;
    }
    let Some(outer) = link_to(letters, entries, parent, name, above) else {
        return None;
    };
    match link {
        Link::Right(_) => raise_right(entries, outer, above),
        _ => raise_left(entries, outer, above),
    }
}

/// What lowers entry `id`, to which the link leads, below the heavier of its two siblings. `None` where it lacks one of them.
pub fn plan_sink(entries: &[DirEntry], link: Link, id: u32) -> Option<Rotation>
    ensures { IfSome result (IsRotation (map entry_in entries.now) link id) }
{
    let Some(entry) = entries.get(id as usize) else {
        return None;
    };
    if entry.left_sibling == NO_STREAM {
        return None;
    }
    if entry.right_sibling == NO_STREAM {
        return None;
    }
    if weight(entry.left_sibling) > weight(entry.right_sibling) {
        return raise_left(entries, link, id);
    }
    raise_right(entries, link, id)
}
