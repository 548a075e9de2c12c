// The verdict on the files of a run, as a command.
ghost use Rattle.std.specs.Prelude.{◌≡◌};
ghost use Rattle.command.specs.Outcomes.{Leaves};
ghost use Rattle.check_command.specs.Checks.{check_command, summary_of};

use crate::reading::judge_files;
use command::report_run;
use job_words::CheckJob;
use shelf_traits::{Shelf, Sink};
use standing_files::Verdict;
use std::alloc::Global;
use synth_report::{Fault, Summary};

// The summary of a verdict.
fn summary_of(verdict: Verdict) -> Summary
    ensures { result ≡ summary_of verdict }
{
    match verdict {
        Verdict::Stands => Summary::Stands,
        Verdict::Fails {
            number,
            rule,
            place,
        } => Summary::Fails {
            number,
            rule,
            place,
        },
    }
}

/// Checks the files of a run, with the turns of its samples where the job asks for them. It reads the
/// samples in the order of their numbers, then the out file, the map and the record, and judges its records
/// as they come. It reports that they stand, or the first rule that they break. It begins no file.
pub fn check_files<S: Shelf, O: Sink>(
    alloc: Global,
    job: &CheckJob,
    shelf: &mut S,
    out: &mut O,
) -> Result<Summary, Fault>
    ensures { Leaves (check_command job.now)
        (S.state shelf.old) (S.state shelf.new) (O.state out.old) (O.state out.new) result }
{
    let verdict = judge_files(alloc, job, shelf)?;
    report_run(summary_of(verdict), out)
}
