// A whole run, from the words to the status.
ghost use Rattle.job_words.specs.Jobs.{IsJob};
ghost use Rattle.command.specs.Outcomes.{Answers, Leaves, Runs};
ghost use Rattle.command.specs.Promises.{DoneStatus, IsComplete, IsRunStatus, KeepsFiles, KeepsOthers, MemoryStatus, NamedFiles, ReadStatus, ReadsFirst, RefusedStatus, SaysNothing, WordsStatus, WriteStatus};
ghost use Rattle.check_command.specs.CheckHeadlines.{CheckHeadline};
ghost use Rattle.outputs.specs.GrowHeadlines.{GrowHeadline, GrowReport, OneOutput};
ghost use Rattle.loop_command.specs.LoopHeadlines.{LoopHeadline, OneLoop};
ghost use Rattle.merge_command.specs.MergeHeadlines.{MergeHeadline, MergeReport, OneMerge};
ghost use Rattle.quilt_command.specs.QuiltHeadlines.{OneQuiltOutput, QuiltHeadline, QuiltReport};
ghost use Rattle.outputs.specs.TileHeadlines.{OneTile, TileHeadline};
ghost use Rattle.quilt_command.specs.TransferHeadlines.{OneTransfer, TransferHeadline, TransferReport};
ghost use Rattle.grow_command.specs.TrialHeadlines.{TrialHeadline};
ghost use Rattle.upgrade_command.specs.Upgraded.{UpgradeHeadline};
ghost use Rattle.weave_engine.specs.Engine.{command_of};

use check_command::check_files;
use command::finish;
use grow_command::{grow, trial};
use job_words::{Job, Words, read_job};
use loop_command::loop_clip;
use merge_command::merge_pictures;
use quilt_command::{quilt_picture, transfer_picture};
use shelf_traits::{Shelf, Sink};
use std::alloc::Global;
use synth_report::{Fault, Summary};
use tile_command::tile;
use upgrade_command::upgrade;

// Runs the command of a job.
fn run_job<S: Shelf, O: Sink>(
    alloc: Global,
    job: &Job,
    shelf: &mut S,
    out: &mut O,
) -> Result<Summary, Fault>
    requires { IsJob job.now }
    ensures { Leaves (command_of job.now)
        (S.state shelf.old) (S.state shelf.new) (O.state out.old) (O.state out.new) result }
{
    match job {
        Job::Grow(job) => grow(alloc, job, shelf, out),
        Job::Quilt(job) => quilt_picture(alloc, job, shelf, out),
        Job::Loop(job) => loop_clip(alloc, job, shelf, out),
        Job::Check(job) => check_files(alloc, job, shelf, out),
        Job::Trial(job) => trial(alloc, job, out),
        Job::Upgrade(job) => upgrade(alloc, job, shelf, out),
        Job::Tile(job) => tile(alloc, job, shelf, out),
        Job::Merge(job) => merge_pictures(alloc, job, shelf, out),
        Job::Transfer(job) => transfer_picture(alloc, job, shelf, out),
    }
}

// What the command that the words ask for answers. (The end of a job, spelled out in this function, would be most of
// the crate's proof: `drop` has it proved by itself.)
fn answer<S: Shelf, O: Sink>(
    alloc: Global,
    words: &Words,
    shelf: &mut S,
    out: &mut O,
) -> Result<Summary, Fault>
    ensures { Answers command_of words.now
        (S.state shelf.old) (S.state shelf.new) (O.state out.old) (O.state out.new) result }
{
    match read_job(alloc, words) {
        Ok(job) => {
            let answer = run_job(alloc, &job, shelf, out);
            drop(job);
            answer
        }
        Err(fault) => Err(Fault::Words(fault)),
    }
}

/// Does all that the program does: reads the words, runs the command that they ask for, which writes
/// its files and its report to `out`, and says on `err` why it ended, if not well.
///
/// The status is 0 where all is done, 1 where files that are checked don't stand, 2 where the words ask for no
/// job, 3 where a file breaks its form, 4 where a number passes its bound, 5 after a read and 6 after a write
/// that failed, 7 where memory ran out, and 8 where a clip has no loop of the asked length.
pub fn run<S: Shelf, O: Sink, E: Sink>(
    alloc: Global,
    words: &Words,
    shelf: &mut S,
    out: &mut O,
    err: &mut E,
) -> u8
    // The whole outcome: what the command leaves, by its answer.
    ensures ran { Runs command_of words.now (S.state shelf.old) (S.state shelf.new)
        (O.state out.old) (O.state out.new) (E.state err.old) (E.state err.new) result }

    // When each status comes, and what was written and said then.
    ensures status_done { DoneStatus command_of words.now (S.state shelf.old) (S.state shelf.new)
        (O.state out.old) (O.state out.new) (E.state err.old) (E.state err.new) result }
    ensures silent { SaysNothing (E.state err.old) (E.state err.new) result }
    ensures status_words { WordsStatus words.now (E.state err.old) (E.state err.new) result }
    ensures status_form { RefusedStatus command_of 3 words.now
        (S.state shelf.old) (S.state shelf.new) (E.state err.old) (E.state err.new) result }
    ensures status_limit { RefusedStatus command_of 4 words.now
        (S.state shelf.old) (S.state shelf.new) (E.state err.old) (E.state err.new) result }
    ensures status_read { ReadStatus command_of words.now (S.state shelf.old) (S.state shelf.new)
        (E.state err.old) (E.state err.new) result }
    ensures status_write { WriteStatus command_of words.now (S.state shelf.old) (S.state shelf.new)
        (O.state out.old) (O.state out.new) (E.state err.old) (E.state err.new) result }
    ensures status_memory { MemoryStatus (E.state err.old) (E.state err.new) result }
    ensures status_loop { RefusedStatus command_of 8 words.now
        (S.state shelf.old) (S.state shelf.new) (E.state err.old) (E.state err.new) result }
    ensures no_other_status { IsRunStatus result }
    ensures complete { IsComplete command_of words.now (S.state shelf.old) (S.state shelf.new)
        (O.state out.old) (O.state out.new) result }

    // What is as before.
    ensures refused_files { KeepsFiles (S.state shelf.old) (S.state shelf.new)
        (O.state out.old) (O.state out.new) result }
    ensures other_files { KeepsOthers command_of words.now (S.state shelf.old) (S.state shelf.new) }

    // Whatever it answers, only files that the words name were asked for, read or written.
    ensures named_files { NamedFiles command_of words.now (S.state shelf.old) (S.state shelf.new) }

    // The calls are in two halves. Up to a state between, only files that the command reads are asked for, and no
    // file is changed; from there on only files that it writes. A shelf tells names of calls and no kinds, so of
    // their order this says no more than `named_files`.
    ensures reads_first { ReadsFirst command_of words.now (S.state shelf.old) (S.state shelf.new) }

    // With status 0 of `grow` every output cell is the sample cell that the written map names; each placement
    // of the written record keeps its fixed cells and has the least total cost of seams, old ones
    // included, of all choices between old and new; no record of a round raises the total; the record stands
    // and replays to the map; and the files are such that `check` accepts them.
    ensures headline { GrowHeadline words.now (S.state shelf.old) (S.state shelf.new) result }

    // Out file and map are a function of the words and the sample files.
    ensures one_output { OneOutput words.now (S.state shelf.old) (S.state shelf.new) result }

    // The report is that of the written map and record: the size, how many placements and rounds, and what the
    // seams cost in all. It is a function of the words and the sample files, too.
    ensures grow_report { GrowReport words.now (S.state shelf.old) (S.state shelf.new)
        (O.state out.old) (O.state out.new) result }

    // With status 0 of `quilt` every output cell is the sample cell that the written map names; each boundary of
    // the written record is the first of the least ones through its strip; the record stands and replays to
    // the map; and the files are such that `check` accepts them. All three are a function of the words and
    // the sample file, and the report is that of the record.
    ensures quilted { QuiltHeadline words.now (S.state shelf.old) (S.state shelf.new) result }
    ensures one_quilt { OneQuiltOutput words.now (S.state shelf.old) (S.state shelf.new) result }
    ensures quilt_report { QuiltReport words.now (S.state shelf.old) (S.state shelf.new)
        (O.state out.old) (O.state out.new) result }

    // With status 0 of `loop` each frame is the sample's frame that the written map names; these frames are a
    // closed walk of the asked length, such that none of that length costs less; and the files are such
    // that `check` accepts them. Of all such walks it is the first by the middles of its parts, so all three
    // files and the report are a function of the words and the sample file.
    ensures looped { LoopHeadline words.now (S.state shelf.old) (S.state shelf.new) result }
    ensures one_loop { OneLoop words.now (S.state shelf.old) (S.state shelf.new)
        (O.state out.old) (O.state out.new) result }

    // `check` answers 0 exactly where the files stand, and 1 exactly where they are in their forms and
    // limits and don't, with the first rule that they break. In what it accepts each cell of the out file is
    // the samples' cell that the map file names, and the records are least, whoever made them.
    ensures checked { CheckHeadline words.now (S.state shelf.old) (S.state shelf.new)
        (O.state out.old) (O.state out.new) result }

    // With status 0 of `trial` the report is that of the run of the words over the sample of their
    // number, of whose records each stands; there is one such report.
    ensures tried { TrialHeadline words.now (S.state shelf.old) (S.state shelf.new)
        (O.state out.old) (O.state out.new) result }

    // With status 0 of `upgrade` the new map and record have the values of the old ones in version 2, and
    // `check` says of the new pair what it says of the old one.
    ensures upgraded { UpgradeHeadline words.now (S.state shelf.old) (S.state shelf.new)
        (O.state out.old) (O.state out.new) result }

    // With status 0 of `tile` every output cell is the sample cell that the written map names; the map is the
    // last one of the run of the words, each choice of which has the least total cost of seams, those across
    // the edges included; out file and map are read again as what was written; and the report is that of the
    // run. Out file, map and report are a function of the words and the sample file.
    ensures tiled { TileHeadline words.now (S.state shelf.old) (S.state shelf.new)
        (O.state out.old) (O.state out.new) result }
    ensures one_tile { OneTile words.now (S.state shelf.old) (S.state shelf.new)
        (O.state out.old) (O.state out.new) result }

    // With status 0 of `merge` every output cell is the same cell of the picture that the written map names; each
    // marked cell is its own picture's; and the map is that of the merge, in which each picture from the second on
    // is laid by the choice of least total cost of all that keep the marked cells. Out file and map are read again
    // as what was written. They are a function of the pictures and the marks, and so is the report, which is that
    // of the map.
    ensures merged { MergeHeadline words.now (S.state shelf.old) (S.state shelf.new) result }
    ensures one_merge { OneMerge words.now (S.state shelf.old) (S.state shelf.new) result }
    ensures merge_report { MergeReport words.now (S.state shelf.old) (S.state shelf.new)
        (O.state out.old) (O.state out.new) result }

    // With status 0 of `transfer` every output cell is the sample cell that the written map names, in the target's
    // size; the record is that of the run of the words over sample and target; each of its boundaries is the first
    // of the least ones through its strip; it stands and replays to the map; and the files are such that `check`
    // accepts them. All three are a function of the words and the two files, and so is the report, which is that of
    // the record and of how far the output is from the target.
    ensures transferred { TransferHeadline words.now (S.state shelf.old) (S.state shelf.new)
        result }
    ensures one_transfer { OneTransfer words.now (S.state shelf.old) (S.state shelf.new) result }
    ensures transfer_report { TransferReport words.now (S.state shelf.old) (S.state shelf.new)
        (O.state out.old) (O.state out.new) result }
{
    let answer = answer(alloc, words, shelf, out);
    finish(&answer, err)
}
