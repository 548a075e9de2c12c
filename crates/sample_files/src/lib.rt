//! The samples of a run, read from their files, as one volume.
//!
//! A sample has a form, that of a picture or of a clip: what its bytes are, which are refused, and
//! what an output in its form looks like are words of specs/Samples.antt, and every crate above speaks
//! of samples by them. `read_several` reads up to 16 files in the order of their numbers, as is asked
//! of them: they are the parts of one volume, or it gives the first refusal (specs/Several.antt).
//! `read_samples` is it for the samples of a run. `one_answer` says that files have one answer at
//! most. `read_part`, `read_picture` and `read_target` read one picture (`ReadsPart` of the crate
//! command, specs/Targets.antt). `within_bounds` asks whether an output is within its bounds in a form
//! (specs/Outputs.antt). `worked` makes the samples that a run works over: those that were read, or all their turns
//! (specs/Worked.antt).
#![tactic(auto)]

mod form;
mod law;
mod output;
mod picture;
mod sample;
mod several;
mod working;

pub use form::Form;
pub use law::{one_answer, samples_are_sound};
pub use output::within_bounds;
pub use picture::{read_part, read_picture, read_target};
pub use sample::{Sample, read_sample, read_sample_within};
pub use several::{Asked, Samples, parts_within, read_samples, read_several};
pub use working::{worked, worked_is_told};
