//! The blocks of a quilt, and the strips in which they overlap.
//!
//! A quilt is laid block by block, in raster order, so that each block overlaps those before it by some
//! columns on the left and some rows at the top (Efros and Freeman, SIGGRAPH 2001). These are its strips.
//!
//! `block_rect` gives the next block's box for a plan (specs/Blocks.antt). Over a canvas that is laid for the
//! plan (specs/Laid.antt), `next_block_shares_strips` says that the filled cells of that box are exactly
//! those of its strips, that each strip fits in the box, and that the canvas is laid again once the block is
//! in. `strip_of` gives the errors of a strip (specs/Strips.antt), through which the crate strip_boundary
//! finds the least boundary.
#![tactic(auto)]

mod blocks;
mod laws;
mod plan;
mod side;
mod strips;

pub use blocks::block_rect;
pub use laws::{empty_map_is_laid, next_block_shares_strips};
pub use plan::QuiltPlan;
pub use side::Side;
pub use strips::strip_of;
