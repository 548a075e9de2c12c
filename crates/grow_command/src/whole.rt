// The command that grows a texture from samples.
ghost use Rattle.job_words.specs.GrowWords.{IsGrowJob};
ghost use Rattle.command.specs.Outcomes.{Leaves};
ghost use Rattle.outputs.specs.Growths.{grow_command};

use crate::plan::plan;
use command_files::writer_for;
use job_words::GrowJob;
use outputs::write_growth;
use shelf_traits::{Shelf, Sink};
use std::alloc::Global;
use synth_report::{Fault, Summary};

/// Grows a texture: reads the samples in the order of their numbers, computes the output, and writes the
/// picture, then the map, the record, and the report. All is computed before the first file is begun, and
/// no memory is taken after it.
pub fn grow<S: Shelf, O: Sink>(
    alloc: Global,
    job: &GrowJob,
    shelf: &mut S,
    out: &mut O,
) -> Result<Summary, Fault>
    requires { IsGrowJob job.now }
    ensures { Leaves (grow_command job.now)
        (S.state shelf.old) (S.state shelf.new) (O.state out.old) (O.state out.new) result }
{
    let growth = plan(alloc, job, shelf)?;
    let writer = match writer_for(alloc, &growth.samples.form, job.size) {
        Ok(writer) => writer,
        // Given to `drop`, the end of all that was made is proved once, by itself.
        Err(_) => {
            drop(growth);
            return Err(Fault::NoMemory);
        }
    };
    let answer = write_growth(job, &growth, writer, shelf, out);
    drop(growth);
    answer
}
