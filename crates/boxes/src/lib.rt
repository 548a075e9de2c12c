//! The cells and the pairs of a box: the walk over them, by counts from its corner, and sums over them. And
//! along one axis, where the whole sample, a copy of it in a grid, or a patch of it comes to lie in an output.
//!
//! `Counts` is a cell of a box. A walk begins at `Counts::first` and takes `next` for each index in raster
//! order, with no division; `next_along` is the neighbour along an axis, and `stride` how many cells on it
//! comes. `Walk` counts the pairs of the cells as it goes, so that it has the number of each pair that it
//! comes to; `Counts::pair_number` is the number of any pair in closed form, so that a walk may look back with
//! no list of them. specs/Raster.antt has raster order, specs/Pairs.antt cells, pairs and their numbers.
//!
//! specs/Sums.antt has the sums that contracts cite, of numbers (`sum_to`, `sum_box`) and of signed
//! numbers (`signed_sum_to`, `signed_sum_box`). Most of their laws hold of any addition whose
//! terms may be put together in any order, and are proved once for all of them (proofs/Additions.antt): a
//! law cited with `counts` speaks of numbers, with `integers` of signed numbers. proofs/Axes.antt has the
//! laws along one axis, each by induction on its length, proofs/Boxes.antt the same over the three axes of
//! a box, and proofs/Bounds.antt what order and signs add.
//!
//! `grid_on` gives the copy in a grid that has a coordinate, `laid_on` the whole part laid so that one of its
//! coordinates comes to another, and `patch_corner` and `patch_len` a patch. Each answer is exactly the one of
//! specs/Spans.antt; of `grid_on` the contract says further that the span lies in the output and in the part, and
//! has the coordinate. specs/Rooms.antt says when a box of one size has a place in another, and specs/FirstBoxes.antt
//! which boxes come first, where each is laid for the first cell outside those before it. The search (crate
//! patch_picks) and the check of quilts (crate block_strips) both lay boxes by these words, so that neither has to
//! depend on the other.
#![tactic(auto)]

mod counts;
mod laws;
mod numbers;
mod spans;
mod walk;

pub use counts::{Counts, clipped, has_cells, stride};
pub use laws::grid_corner_is_least;
pub use numbers::pair_count;
pub use spans::{Span, count_of, grid_on, laid_on, patch_corner, patch_len};
pub use walk::Walk;
