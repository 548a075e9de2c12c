//! Clips in YUV4MPEG2, with planes of 8 bits.
//!
//! The grammar is in specs/StreamLine.antt, specs/Spaces.antt and specs/Clips.antt, as a relation
//! between a whole list of bytes and a clip, the place of each refusal in specs/Refusals.antt, and the
//! writer's form in specs/Writing.antt. `read_clip` promises the clip or the refusal, `ClipWriter` the
//! writer's form, and `one_reading` that a list of bytes stands for one clip at most or has one refusal
//! at most, and that what is written is read again.
#![tactic(auto)]

mod form;
mod frame;
mod frames;
mod head;
mod law;
mod lay;
mod line;
mod planes;
mod read;
mod scan;
mod write;

pub use form::{Clip, ClipForm, SpaceKind, Tags};
pub use law::{frames_follow, one_reading};
pub use read::read_clip;
pub use write::ClipWriter;
