//! A text that isn't counted right.

/// A place of the string pool, counted from 1, whose text is used by another number of cells than the pool counts.
#[derive(Clone, Copy, Debug, PartialEq, Eq)]
pub struct Miscount {
    pub place: u32,
    pub counted: u16,
    pub used: u16,
}
