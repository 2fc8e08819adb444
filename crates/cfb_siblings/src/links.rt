//! Links between entries.
ghost use Rattle.cfb_siblings.specs.Links.{holder, linked_to};
ghost use Rattle.cfb_tree.specs.EntryViews.{entry_in};
ghost use Rattle.std.specs.Prelude.{◌≡◌};

use cfb_tree::{Color, DirEntry};

/// A link of an entry: a storage's to its children, or a sibling's to those before it or after it ([MS-CFB] 2.6.4). Each
/// has the number of the entry that has the link.
#[derive(Clone, Copy, Debug, PartialEq, Eq)]
pub enum Link {
    Child(u32),
    Left(u32),
    Right(u32),
}

/// A link, and the entry to which it is to lead.
#[derive(Clone, Copy, Debug, PartialEq, Eq)]
pub struct NewLink {
    pub link: Link,
    pub target: u32,
}

impl Link {
    /// The number of the entry that has the link.
    pub fn holder(self) -> u32
        ensures { result ≡ holder self }
    {
        match self {
            Link::Child(id) => id,
            Link::Left(id) => id,
            Link::Right(id) => id,
        }
    }
}

/// Makes the link lead to `target`, in the entry that has it, which becomes black: so no red sibling comes to hang under a
/// red one ([MS-CFB] 2.6.4). All else of the entry stays.
pub fn relink(entry: &mut DirEntry, link: Link, target: u32)
    ensures { entry_in entry.new ≡ linked_to link target (entry_in entry.old) }
{
    match link {
        Link::Child(_) => entry.child = target,
        Link::Left(_) => entry.left_sibling = target,
        Link::Right(_) => entry.right_sibling = target,
    }
    entry.set_color(Color::Black);
}
