// The bounds of an output in the form of the samples.
ghost use Rattle.cells.specs.Places.{HasAxes};
ghost use Rattle.sample_files.specs.Outputs.{AsksBounds};

use crate::form::Form;
use cells::Size;
use limits::{GREATEST_AXIS, MOST_OUTPUT_CELLS, MOST_PICTURE_FRAMES};
use shelf_traits::What;
use synth_report::Fault;

/// Asks whether an output of this size is within its bounds in this form, or refuses it: first for its
/// frames, and then for its cells.
pub fn within_bounds(size: Size, form: &Form) -> Result<(), Fault>
    requires { HasAxes size }
    ensures { AsksBounds size form.now result }
{
    let frames = match form {
        Form::Picture { .. } => MOST_PICTURE_FRAMES,
        Form::Clip { .. } => GREATEST_AXIS,
    };
    if size.f > frames {
        return Err(Fault::Limit {
            what: What::Frames,
            number: u64::from(size.f),
            bound: u64::from(frames),
        });
    }
    // A u64 holds them, also where they are too many for a volume.
    let cells = u64::from(size.w) * (u64::from(size.h) * u64::from(size.f));
    if cells > MOST_OUTPUT_CELLS {
        return Err(Fault::Limit {
            what: What::Output,
            number: cells,
            bound: MOST_OUTPUT_CELLS,
        });
    }
    Ok(())
}
