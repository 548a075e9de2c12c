//! Placements by graph cuts: of all choices between old and new the one of least cost, put in with the
//! record that shows it.
//!
//! `place_held` and `place` promise a choice of the least total seam cost, of those the one with the
//! fewest old cells (crate least_choice), the map after it, and a record that stands over the canvas as it
//! was (specs/Placed.antt). They take all their memory before they change the canvas.
//! `to_record` reads the record out of a solved network (specs/Records.antt). The method is that of
//! Kwatra et al., "Graphcut textures" (2003): the network is `cut_graph`'s, its solver `max_flow`'s, and
//! `cut_check` judges the record.
#![tactic(auto)]

mod placing;
mod record;

pub use placing::{place, place_held};
pub use record::to_record;
