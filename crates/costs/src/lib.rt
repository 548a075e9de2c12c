//! Seam costs: what it costs that two neighbours of the output come from cells of the sample that
//! aren't neighbours there, and which choices between old and new cost the least.
//!
//! specs/Costs.antt defines the cost of two neighbours, the total of a map and the window sum of a box, for
//! any distance of sample places; `specs/Lawful.antt` kept and free cells, admissible choices and least ones,
//! by totals alone. The calls of this crate give the costs of those definitions, with the distance of cells;
//! `laws` has what follows from the definitions.
//!
//! One walk over a box (`sums`) adds the costs of its pairs, wherever the sources of the cells come from
//! (`Sources`): a map, or a map as far as a box goes. What a choice over a placement would leave (`after`) is
//! summed by a walk of its own, which reads no source for two new cells: they cost nothing. Whether a cell of a
//! box is kept (`kept`) is asked of the map at the border of the box alone.
#![tactic(auto)]

mod after;
mod intersection;
mod kept;
mod laws;
mod marks;
mod pairs;
mod sources;
mod sums;

pub use after::window_after;
pub use kept::is_kept_at;
pub use laws::{choices_change_the_total_as_their_window, some_choice_is_lawful};
pub use marks::are_marks;
pub use pairs::{pair_cost, seam_of};
pub use sources::Sources;
pub use sums::{pairs_of_box, total, window};
