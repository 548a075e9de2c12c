// What is asked of a transfer.
use block_strips::QuiltPlan;

/// How blocks are laid.
#[derive(Clone, Copy, Drop)]
pub struct TransferPlan {
    /// Where blocks lie, and by how much more than the best a block may differ.
    pub quilt: QuiltPlan,
    /// How many hundredths of a block's error are its overlap error; the others are its distance from the
    /// target. At most `limits::GREATEST_ALPHA`.
    pub alpha: u32,
}
