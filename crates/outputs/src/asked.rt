// What is asked of growing, by `grow` and by `trial`.
ghost use Rattle.std.specs.Prelude.{◌≡◌};
ghost use Rattle.outputs.specs.Growths.{fault_of_growing, mode_for};

use grown::GrowError;
use job_words::Place;
use limits::MOST_BOX_CELLS;
use patch_picks::Mode;
use shelf_traits::What;
use synth_report::Fault;

/// The mode of growing, by what the words ask for.
pub fn mode_for(place: Place, side: u32, overlap: u32, tol: u32) -> Mode
    ensures { result ≡ mode_for place side overlap tol }
{
    match place {
        Place::Grid => Mode::Grid { overlap },
        Place::Random => Mode::Random,
        Place::Whole => Mode::Whole { tol },
        Place::Sub => Mode::Sub { side, overlap, tol },
    }
}

/// What a run without an output is refused for.
pub fn growing_fault(error: GrowError) -> Fault
    ensures { result ≡ fault_of_growing error }
{
    match error {
        GrowError::Records(number) => Fault::Limit {
            what: What::Records,
            number,
            bound: MOST_BOX_CELLS,
        },
        GrowError::NoMemory => Fault::NoMemory,
    }
}
