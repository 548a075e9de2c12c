//! The bounds of weave, each of them once: what a volume may be, what a file may hold, what an output or a
//! record may take, and what the words may ask for.
//!
//! Each bound that README.md lists is one constant here. Two bounds that happen to be the same
//! number stay two constants, so that either can be moved alone. Code and clauses cite the constant of a
//! bound; a clause sees a natural number, whatever the type.
#![tactic(auto)]

mod bounds;

pub use bounds::{
    GREATEST_ALPHA, GREATEST_AXIS, GREATEST_OVERLAP, GREATEST_SAMPLE_NUMBER, GREATEST_SEED,
    GREATEST_TOLERANCE, LEAST_WRAPPED_AXIS, LONGEST_LOOP, MOST_BOX_CELLS, MOST_CELLS,
    MOST_CHANNELS, MOST_HEADER_BYTES, MOST_LINE_BYTES, MOST_LOOP_CELLS, MOST_LOOP_FRAMES,
    MOST_MAP_CELLS, MOST_OUT_CLIP_CELLS, MOST_OUTPUT_CELLS, MOST_PARTS, MOST_PICTURE_FRAMES,
    MOST_ROUNDS, MOST_SAMPLE_CELLS, MOST_TAG_BYTES, WIDEST_GAP,
};
