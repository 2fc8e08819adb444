//! Kinds and colours of directory entries.
ghost use Rattle.cfb_tree.specs.EntryViews.{color_of, kind_of};
ghost use Rattle.std.specs.Prelude.{MatchOption, ◌≡◌, ◌≢◌};

use cfb_sectors::{
    COLOR_BLACK, COLOR_RED, OBJ_TYPE_ROOT, OBJ_TYPE_STORAGE, OBJ_TYPE_STREAM, OBJ_TYPE_UNALLOCATED,
};

/// What a directory entry is ([MS-CFB] 2.6.1).
#[derive(Clone, Copy, Debug, PartialEq, Eq)]
pub enum ObjType {
    /// Not in use.
    Unallocated,
    Storage,
    Stream,
    /// The root storage.
    Root,
}

impl ObjType {
    /// The byte of the kind.
    pub fn as_byte(self) -> u8
        ensures { result ≡ kind_of self }
    {
        match self {
            ObjType::Unallocated => OBJ_TYPE_UNALLOCATED,
            ObjType::Storage => OBJ_TYPE_STORAGE,
            ObjType::Stream => OBJ_TYPE_STREAM,
            ObjType::Root => OBJ_TYPE_ROOT,
        }
    }

    /// The kind of a byte, where it has one.
    pub fn from_byte(byte: u8) -> Option<ObjType>
        ensures { MatchOption result ((k : ObjType) → byte ≢ kind_of k) (λ k. byte ≡ kind_of k) }
    {
        match byte {
            OBJ_TYPE_UNALLOCATED => Some(ObjType::Unallocated),
            OBJ_TYPE_STORAGE => Some(ObjType::Storage),
            OBJ_TYPE_STREAM => Some(ObjType::Stream),
            OBJ_TYPE_ROOT => Some(ObjType::Root),
            _ => None,
        }
    }
}

/// The colour of an entry in its sibling tree ([MS-CFB] 2.6.4).
#[derive(Clone, Copy, Debug, PartialEq, Eq)]
pub enum Color {
    Red,
    Black,
}

impl Color {
    /// The byte of the colour.
    pub fn as_byte(self) -> u8
        ensures { result ≡ color_of self }
    {
        match self {
            Color::Red => COLOR_RED,
            Color::Black => COLOR_BLACK,
        }
    }

    /// The colour of a byte, where it has one.
    pub fn from_byte(byte: u8) -> Option<Color>
        ensures { MatchOption result ((k : Color) → byte ≢ color_of k) (λ k. byte ≡ color_of k) }
    {
        match byte {
            COLOR_RED => Some(Color::Red),
            COLOR_BLACK => Some(Color::Black),
            _ => None,
        }
    }
}
