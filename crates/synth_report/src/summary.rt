// What a run has done.
use cells::Size;

/// What a run has done. Sizes are in cells.
#[derive(Clone, Copy, Drop)]
pub enum Summary {
    /// An output was grown by so many placements and rounds of refinement. Its seams cost so much in
    /// all.
    Grow {
        size: Size,
        placements: u64,
        rounds: u64,
        seams: u64,
    },
    /// An output was quilted from so many blocks, with so many boundaries of this cost in all.
    Quilt {
        size: Size,
        blocks: u64,
        boundaries: u64,
        cost: u64,
    },
    /// A loop of this length was found, with its first frame and its cost.
    Loop {
        length: u32,
        start: u32,
        cost: u64,
    },
    /// The files stand.
    Stands,
    /// A record, by its number from 1, breaks this rule at this place; number 0 stands for the files.
    Fails {
        number: u64,
        rule: u32,
        place: u64,
    },
    /// The sample of this number was made, grown, and its records were checked.
    Trial {
        n: u32,
        size: Size,
        placements: u64,
        rounds: u64,
        seams: u64,
    },
    /// A map of so many cells and a record of so many cuts were written in the later version.
    Upgrade {
        cells: u64,
        cuts: u64,
    },
    /// A picture was painted with blocks. It differs from its target by so much.
    Transfer {
        size: Size,
        blocks: u64,
        boundaries: u64,
        cost: u64,
        matched: u64,
    },
    /// So many pictures were merged. The seams cost so much in all.
    Merge {
        size: Size,
        pictures: u32,
        seams: u64,
    },
    /// An output whose edges meet was made by so many placements. Its seams cost so much in all.
    Tile {
        size: Size,
        placements: u64,
        seams: u64,
    },
}
