// The command that tiles an output whose edges meet.
ghost use Rattle.job_words.specs.TileWords.{IsTileJob};
ghost use Rattle.command.specs.Outcomes.{Leaves};
ghost use Rattle.outputs.specs.Tilings.{tile_command};

use crate::plan::plan;
use command_files::writer_for;
use job_words::TileJob;
use outputs::write_tiling;
use shelf_traits::{Shelf, Sink};
use std::alloc::Global;
use synth_report::{Fault, Summary};

/// Tiles an output whose edges meet: reads the sample, computes the output, and writes the picture, then the map,
/// and the report. All is computed before the first file is begun, and no memory is taken after it.
pub fn tile<S: Shelf, O: Sink>(
    alloc: Global,
    job: &TileJob,
    shelf: &mut S,
    out: &mut O,
) -> Result<Summary, Fault>
    requires { IsTileJob job.now }
    ensures { Leaves (tile_command job.now)
        (S.state shelf.old) (S.state shelf.new) (O.state out.old) (O.state out.new) result }
{
    let made = plan(alloc, job, shelf)?;
    let writer = match writer_for(alloc, &made.sample.form, job.size) {
        Ok(writer) => writer,
        // Given to `drop`, the end of all that was made is proved once, by itself.
        Err(_) => {
            drop(made);
            return Err(Fault::NoMemory);
        }
    };
    let answer = write_tiling(job, &made, writer, shelf, out);
    drop(made);
    answer
}
