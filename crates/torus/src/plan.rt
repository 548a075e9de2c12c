// What is asked of tiling, and what it gives.
use cells::Size;
use job_words::TilePlan;
use map_canvas::Canvas;

/// How an output whose edges meet is tiled.
#[derive(Clone, Copy, Drop)]
pub struct RunPlan {
    /// The size of the output, in cells.
    pub size: Size,
    /// The axes on which its edges meet, and how patches are laid.
    pub tile: TilePlan,
    /// The seed of the draws.
    pub seed: u64,
}

/// A tiled output.
#[derive(Drop)]
pub struct Tiled {
    /// The full canvas.
    pub canvas: Canvas,
    /// How many patches were laid.
    pub placements: u64,
}
