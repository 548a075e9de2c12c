// Cut records, and what is wrong with one.
use items::Items;
use map_canvas::Placement;

/// The flow of a pair: two neighbours of a placement's box.
#[derive(Clone, Copy, Drop, PartialEq, Eq)]
pub struct Flow {
    /// What flows out of the first cell towards the second.
    pub x: i16,
    /// What flows into the second cell. What doesn't come to it ends between the two.
    pub y: i16,
}

/// A placement, a choice between old and new for each cell of its box, and a flow that shows that the
/// choice costs the least.
#[derive(Drop)]
pub struct CutRecord {
    /// The box, and where its new sources begin.
    pub placement: Placement,
    /// For each cell of the box, in raster order, whether it is new.
    pub choice: Items<bool>,
    /// For each pair of the box its flow: in the raster order of the first cell of the pair, and for one
    /// first cell along X, Y and F.
    pub flows: Items<Flow>,
}

/// Rule 1: the placement fits.
pub const FIT_RULE: u32 = 1;
/// Rule 2: each unfilled cell of the box is new.
pub const FILL_RULE: u32 = 2;
/// Rule 3: no kept or held cell is new.
pub const KEEP_RULE: u32 = 3;
/// Rule 4: the flow of each pair is within its bounds.
pub const BOUNDS_RULE: u32 = 4;
/// Rule 5: as much leaves each free cell as comes to it.
pub const BALANCE_RULE: u32 = 5;
/// Rule 6: what leaves the kept and held cells is the window sum of the box after the choice.
pub const VALUE_RULE: u32 = 6;

/// The first rule that a cut record breaks.
#[derive(Clone, Copy, Drop, PartialEq, Eq)]
pub struct CutFault {
    /// The number of the rule, from `FIT_RULE` to `VALUE_RULE`.
    pub kind: u32,
    /// The first place where it is broken: for `FILL_RULE`, `KEEP_RULE` and `BALANCE_RULE` the index of a
    /// cell in the box, in raster order, for `BOUNDS_RULE` the number of a pair, and 0 for the others.
    pub place: u64,
}
