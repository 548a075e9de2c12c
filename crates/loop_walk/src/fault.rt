// What the checker finds.

/// The rule that a walk is closed. It is broken at a position of the walk.
pub const WALK_RULE: u32 = 12;

/// The rule that each entry is at most each of its sums. It is broken at an entry, counted through all
/// tables.
pub const TABLES_RULE: u32 = 13;

/// The rule that the walk costs at most each diagonal entry of the last table. It is broken at a frame.
pub const DIAGONAL_RULE: u32 = 14;

/// The first rule that a record of a walk breaks, and the first place where it does.
#[derive(Clone, Copy, Drop, PartialEq, Eq)]
pub struct LoopFault {
    pub kind: u32,
    pub place: u64,
}
