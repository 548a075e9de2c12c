//! The command that makes a loop of a clip.
//!
//! `loop_clip` reads one clip, finds a closed walk of the asked length through its frames that shows the
//! least change at its jumps, and writes the frames of the walk as a clip, the frame map and the walk's
//! record (specs/Loops.antt has what it refuses and makes). specs/LoopHeadlines.antt has what holds when
//! it is done. `plan` reads and computes, `files` writes the files frame by frame, straight from the
//! sample, and `whole` does both.
#![tactic(auto)]

mod files;
mod plan;
mod whole;

pub use files::{FrameMapFile, LoopFile, WalkFile};
pub use plan::LoopedClip;
pub use whole::loop_clip;
