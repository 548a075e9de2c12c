// What is asked of quilting, and what it gives.
use block_check::BlockRecord;
use block_strips::QuiltPlan;
use cells::Size;
use items::Items;
use map_canvas::Canvas;
use std::alloc::AllocError;

/// A quilt that is asked for.
#[derive(Clone, Copy, Drop)]
pub struct QuiltRun {
    /// The size of the output, in cells, of one frame.
    pub size: Size,
    /// How its blocks are laid.
    pub plan: QuiltPlan,
    /// The seed of the draws.
    pub seed: u64,
}

/// A quilted output.
#[derive(Drop)]
pub struct Quilted {
    /// The full canvas.
    pub canvas: Canvas,
    /// The record of each block, in the order in which they are laid.
    pub blocks: Items<BlockRecord>,
    /// How many boundaries the records have, all together.
    pub boundaries: u64,
    /// What these boundaries cost, all together: squared differences of samples.
    pub cost: u64,
}

/// Why nothing is quilted.
#[derive(Clone, Copy, Drop)]
pub enum QuiltError {
    /// The boxes have more than `limits::MOST_BOX_CELLS` cells, all together: so many with the first box
    /// that is too much.
    Records(u64),
    /// There is no memory.
    NoMemory,
}

impl From<AllocError> for QuiltError {
    ghost use Rattle.std.specs.Prelude.{◌≡◌};
    ghost use Rattle.quilted.specs.declared.asked.QuiltError.TheVariants as error;

    ghost from_gives = { λ _ e. e ≡ error.NoMemory };

    fn from(_: AllocError) -> QuiltError {
        QuiltError::NoMemory
    }
}
