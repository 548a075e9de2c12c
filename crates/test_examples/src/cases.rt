// What is tried over a sample and a canvas.
use crate::samples::{Sample, Source};
use block_strips::QuiltPlan;
use cells::{Box3, Size};
use cut_check::Flow;
use grown::GrowPlan;
use job_words::TilePlan;
use patch_picks::Mode;
use torus::RunPlan;

/// A placement over a row, as its corner, its length, and the column and the frame of its source, where one is left; and
/// the number of the draw after it.
pub(crate) type Step = (Option<(i32, u32, i32, i32)>, u64);

/// A placement, as its corner, its size, and its place of the sample.
pub(crate) type Entry = ((i32, i32, i32), (u32, u32, u32), (i32, i32, i32));

/// The node of each cell, the seam node and the first pipe of each pair, and the value of a greatest flow.
pub(crate) type Nodes<'a> = (&'a [u32], &'a [u32], &'a [u32], u64);

/// A box that is laid from the sample's first cell on, with the cells that are held; the choice; the flow of the first
/// pair, or none where as much comes to a cell as goes on from it; the flows of the other pairs; and the window sum of
/// the box afterwards.
pub(crate) type Cut<'a> = (
    Box3,
    Option<&'a [bool]>,
    &'a [bool],
    Option<Flow>,
    &'a [Flow],
    u64,
);

/// Where a record of four cells of a row begins, its choice and its flows.
pub(crate) type Record<'a> = (i32, &'a [bool], &'a [Flow]);

/// What is left of a run: the sources, the sum of the costs, how many records and rounds there are, and the first
/// records. Where these are given, each of the run's records is one of them.
pub(crate) type Growth<'a> = (&'a [Source], u64, usize, u32, &'a [Record<'a>]);

/// What has to hold of a sample and a canvas over it.
pub(crate) enum Over<'a> {
    /// What the box of four cells from the third on differs by: the sum, and of how many cells.
    Error(u64, u32),
    /// Whether an error, of which the sum and the count follow, is within a tolerance of the one of that box.
    Within(u32, u64, u32, bool),
    /// The sums at offsets of a row.
    Offsets,
    /// The network of four cells of a row from a column on, with the cells that are held.
    Network(i32, Option<&'a [bool]>, Nodes<'a>),
    /// A mode, a cell of a picture, and the candidates for it, in their order.
    Listed(Mode, (i32, i32), &'a [Entry]),
    /// A box, and its candidates.
    Boxed(Box3, &'a [Entry]),
    /// The size of a window of so many cells on each axis.
    Window(u32, Size),
    /// A mode, the number of a draw, and the next placement by it.
    Step(Mode, u64, Step),
    /// A mode, the corner and the length of its box, and which sources are eligible.
    Picks(Mode, (i32, u32), &'a [Source]),
    /// What is cut.
    Cut(Cut<'a>),
    /// A round over a full row.
    Round,
    /// A limit, up to which column places are searched for it, another limit, and how many places from each of a row on
    /// are ruled out for that.
    RuledOut(u64, i32, u64, &'a [u32]),
    /// The number of a draw, the corner, the length and the column of the next patch, and the sources afterwards.
    Tile(TilePlan, u64, Option<(i32, u32, i32)>, &'a [Source]),
    /// The run of a plan, laid twice to this size, and what share of it each copy has; and whether edges cost something.
    Twice(RunPlan, Size, u64, bool),
    /// The run of a plan, and what is left of it.
    Grown(GrowPlan, Growth<'a>),
    /// The run of a plan, the sources, and how many blocks and boundaries it has and what these cost.
    Quilted(QuiltPlan, &'a [Source], (usize, u64, u64)),
    /// One block that covers a row of four cells.
    Block(QuiltPlan),
}

/// A sample, the size of a canvas over it, the sources of its first cells, and what has to hold.
pub(crate) type Case<'a> = (Sample<'a>, Size, &'a [i32], Over<'a>);
