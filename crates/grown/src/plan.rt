// What is asked of growing, and what it gives.
use cells::Size;
use cut_check::CutRecord;
use items::Items;
use map_canvas::Canvas;
use patch_picks::Mode;
use std::alloc::AllocError;

/// How an output is grown and refined.
#[derive(Clone, Copy, Drop)]
pub struct GrowPlan {
    /// The size of the output, in cells.
    pub size: Size,
    /// Which placements are made until the output is full.
    pub mode: Mode,
    /// The cells of a window of refinement on each axis, at most those of the output and of each part of
    /// the sample.
    pub side: u32,
    /// By how much more than the best a placement of a round may differ, in hundredths.
    pub tol: u32,
    /// How many rounds of refinement follow; fewer are made where the seams of no window cost anything.
    pub rounds: u32,
    /// The seed of the draws.
    pub seed: u64,
}

/// A grown output.
#[derive(Drop)]
pub struct Grown {
    /// The full canvas.
    pub canvas: Canvas,
    /// The record of each placement in order, those of rounds last.
    pub cuts: Items<CutRecord>,
    /// How many rounds were made; the other records are those of placements.
    pub rounds: u32,
}

/// Why nothing is grown.
#[derive(Clone, Copy, Drop)]
pub enum GrowError {
    /// The boxes have more than `limits::MOST_BOX_CELLS` cells, all together: so many with the first box
    /// that is too much.
    Records(u64),
    /// There is no memory.
    NoMemory,
}

impl From<AllocError> for GrowError {
    ghost use Rattle.std.specs.Prelude.{◌≡◌};
    ghost use Rattle.grown.specs.declared.plan.GrowError.TheVariants as error;

    ghost from_gives = { λ _ e. e ≡ error.NoMemory };

    fn from(_: AllocError) -> GrowError {
        GrowError::NoMemory
    }
}
