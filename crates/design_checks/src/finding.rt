/// What a check of a block list finds.
#[derive(Clone, Copy, Debug, PartialEq, Eq)]
pub enum Finding {
    /// The list is a design of the question.
    Valid,
    /// The block at this place, counted from 1, is the first whose points do not increase, are not all points of the
    /// design, or are too few or too many.
    BadBlock { index: u32 },
    /// All blocks are good, and x < y is the first pair of points, in lexicographic order, that stands together in another
    /// number of blocks than it is to; `count` is that number. Of base blocks, x is 0, and y the first element of the group
    /// that is another number of differences than it is to be.
    BadPair { x: u16, y: u16, count: u32 },
}

/// Two points x < y that stand together in `count` blocks.
#[derive(Clone, Copy)]
pub(crate) struct Pair {
    pub x: u16,
    pub y: u16,
    pub count: u32,
}

/// In how many blocks two points are to stand together.
#[derive(Clone, Copy)]
pub(crate) enum Wanted {
    /// Any two points in so many.
    Everywhere(u16),
    /// Two points of different groups of so many points in one, and two points of one group in none.
    Across(u16),
}
