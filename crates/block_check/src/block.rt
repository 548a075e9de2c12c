// The record of a block.
use map_canvas::Placement;
use strip_boundary::BoundaryRecord;

/// A block of a quilt: where it is laid, and the boundaries through the strips that it shares with what
/// is there before it (Efros and Freeman, SIGGRAPH 2001).
#[derive(Drop)]
pub struct BlockRecord {
    /// The block's box of the output, and the sample place that comes to its corner.
    pub placement: Placement,
    /// The boundary through the first columns of the block, where they overlap.
    pub left: Option<BoundaryRecord>,
    /// The boundary through the first rows of the block, where they overlap.
    pub top: Option<BoundaryRecord>,
}
