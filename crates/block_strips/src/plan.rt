// What is asked of a quilt.

/// How blocks are laid.
#[derive(Clone, Copy, Drop)]
pub struct QuiltPlan {
    /// The cells of a block on each axis, at most those of the output and of the sample; at least 1.
    pub block: u32,
    /// By how many cells two blocks overlap, at most all but one of a block's own.
    pub overlap: u32,
    /// By how much more than the best a block may differ from what it is laid over, in hundredths.
    pub tol: u32,
}
