// What is made of a sample, its bound, and why nothing is made.
ghost use Rattle.std.specs.Prelude.{◌≡◌};
ghost use Rattle.sample_files.specs.Outputs.{AsksOutput};
ghost use Rattle.outputs.specs.BlockOutputs.{fault_of_quilting};

use cells::Size;
use limits::{MOST_BOX_CELLS, MOST_OUTPUT_CELLS};
use netpbm_p6::Picture;
use quilted::{QuiltError, Quilted};
use shelf_traits::What;
use synth_report::Fault;

/// The picture that was read, and the output quilted from its blocks.
#[derive(Drop)]
pub struct PictureQuilt {
    pub sample: Picture,
    pub quilted: Quilted,
}

/// Whether a picture of this size has no more cells than an output may have.
pub fn within_output(w: u32, h: u32) -> Result<(), Fault>
    ensures { AsksOutput (record { w = w; h = h; f = 1 }) result }
{
    let cells = u64::from(w) * u64::from(h);
    if cells > MOST_OUTPUT_CELLS {
        return Err(Fault::Limit {
            what: What::Output,
            number: cells,
            bound: MOST_OUTPUT_CELLS,
        });
    }
    Ok(())
}

/// What a run without an output is refused for.
pub fn quilt_fault(error: QuiltError) -> Fault
    ensures { result ≡ fault_of_quilting error }
{
    match error {
        QuiltError::Records(number) => Fault::Limit {
            what: What::Records,
            number,
            bound: MOST_BOX_CELLS,
        },
        QuiltError::NoMemory => Fault::NoMemory,
    }
}
