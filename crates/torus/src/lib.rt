//! Outputs whose edges meet: on a wrapped axis the last cell and the first are neighbours.
//!
//! `torus_total` gives what the seams of such an output cost, those across the edges included
//! (specs/Wraps.antt). A step of tiling lays a patch for the first unfilled cell, which may pass the edges, by
//! the choice between old and new that costs least there (specs/Steps.antt), and a run is a list of steps from
//! the empty map to the first full one (specs/Tilings.antt). No function here makes a step: the crate tile_run
//! does, which has the search.
//!
//! A step is made on a small canvas of the patch's box and of the cells around it: `tile_box` gives the box of
//! a patch, `small_canvas` that canvas, `small_box` the box on it, and `put_around` puts what is chosen on it
//! into the output. `small_canvas_has_the_least_choices` says that what is least on the small canvas is least on
//! the torus, and `there_is_one_tiled_run` that of a plan and a sample there is one run, each of whose choices
//! is least on the torus (specs/OneTiling.antt). The method is that of Kwatra et al., "Graphcut textures"
//! (2003); that edges meet is own.
//!
//! `around` has coordinates and maps that go on past the edges, `total` the torus total, `rects` the box of a
//! patch, `small` the small canvas, `put` the way back, `plan` what is asked of a run and what it gives, and
//! `laws` what follows from the definitions.
#![tactic(auto)]

mod around;
mod laws;
mod plan;
mod put;
mod rects;
mod small;
mod total;

pub use laws::{small_canvas_has_the_least_choices, there_is_one_tile, there_is_one_tiled_run};
pub use plan::{RunPlan, Tiled};
pub use put::put_around;
pub use rects::tile_box;
pub use small::{small_box, small_canvas};
pub use total::torus_total;
