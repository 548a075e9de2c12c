// The command that grows an output from a sample that it makes of a number.
ghost use Rattle.shelf_traits.specs.Files.{ShelfState};
ghost use Rattle.job_words.specs.TrialWords.{IsTrialJob};
ghost use Rattle.command.specs.Outcomes.{Leaves};
ghost use Rattle.grow_command.specs.Trials.{trial_command};

use crate::trial_plan::plan;
use command::report_run;
use job_words::TrialJob;
use shelf_traits::Sink;
use std::alloc::Global;
use synth_report::{Fault, Summary};

/// Makes the sample of a number, grows an output from it and refines it, checks each record, and reports
/// what came of it. It reads and writes no file.
pub fn trial<O: Sink>(alloc: Global, job: &TrialJob, out: &mut O) -> Result<Summary, Fault>
    requires { IsTrialJob job.now }
    // Whatever the shelf holds, nothing of it changes.
    ensures { (shelf : ShelfState) → Leaves (trial_command job.now)
        shelf shelf (O.state out.old) (O.state out.new) result }
{
    let summary = plan(alloc, job)?;
    report_run(summary, out)
}
