// A run over the files and streams of the system.
ghost use Rattle.std.specs.Prelude.{◌≡◌, ◌⊎◌, [], IfErr, IfOk};
ghost use Rattle.command.specs.Outcomes.{Runs};
ghost use Rattle.command.specs.Promises.{DoneStatus, IsComplete, IsRunStatus, KeepsFiles, KeepsOthers, MemoryStatus, NamedFiles, ReadStatus, ReadsFirst, RefusedStatus, SaysNothing, WordsStatus, WriteStatus};
ghost use Rattle.check_command.specs.CheckHeadlines.{CheckHeadline};
ghost use Rattle.outputs.specs.GrowHeadlines.{GrowHeadline, GrowReport, OneOutput};
ghost use Rattle.loop_command.specs.LoopHeadlines.{LoopHeadline, OneLoop};
ghost use Rattle.merge_command.specs.MergeHeadlines.{MergeHeadline, MergeReport, OneMerge};
ghost use Rattle.quilt_command.specs.QuiltHeadlines.{OneQuiltOutput, QuiltHeadline, QuiltReport};
ghost use Rattle.outputs.specs.TileHeadlines.{OneTile, TileHeadline};
ghost use Rattle.quilt_command.specs.TransferHeadlines.{OneTransfer, TransferHeadline, TransferReport};
ghost use Rattle.grow_command.specs.TrialHeadlines.{TrialHeadline};
ghost use Rattle.upgrade_command.specs.Upgraded.{UpgradeHeadline};
ghost use Rattle.synth_report.specs.declared.fault.Fault.TheVariants.{NoMemory, Write};
ghost use Rattle.synth_report.specs.declared.fault.FileOf.TheVariants.{Report};
ghost use Rattle.system_files.specs.Replays.{AreAskedFor, shelf_of, sink_of};
ghost use Rattle.weave_engine.specs.Engine.{command_of};
ghost use Rattle.weave_program.specs.Endings.{last_output};

use crate::ending::{Ran, last_output};
use job_words::Words;
use shelf_traits::Sink;
use std::alloc::Global;
use synth_report::{Fault, FileOf};
use system_calls::System;
use system_files::{Output, RealShelf, Start, hold_streams};
use weave_engine::run;

/// Runs words over the files of the system, with the report to the standard output. It is an error where
/// there is no memory for the shelf, and where a standard stream may be closed and its number can't be
/// held. Then no file was opened. The last file of the run is still open:
/// `status_of` ends it.
pub fn run_program<S: Start, E: Sink + Drop>(
    system: System,
    out: Output<S>,
    err: E,
    alloc: Global,
    words: &Words,
) -> Result<Ran<S, E>, Fault>
    requires unopened { system ≡ [] }
    requires unsaid { out ≡ [] }
    ensures unmade { IfErr result (λ fault. (fault ≡ NoMemory) ⊎ (fault ≡ Write Report)) }

    // Each file that was opened was asked for, by its name.
    ensures opened { IfOk result (λ ran. AreAskedFor ran.shelf.opens ran.shelf.calls) }

    // The last file that the command of these words writes.
    ensures last { IfOk result (λ ran. ran.last ≡ last_output words.now) }

    // The whole outcome: what the command leaves, by its answer.
    ensures ran { IfOk result (λ ran. Runs command_of words.now (shelf_of S.files S.left [])
        (shelf_of S.files S.left ran.shelf.calls) (sink_of S.left_out [])
        (sink_of S.left_out ran.out) (E.state err) (E.state ran.err) ran.status) }

    // When each status comes, and what was written and said then.
    ensures status_done { IfOk result (λ ran. DoneStatus command_of words.now
        (shelf_of S.files S.left []) (shelf_of S.files S.left ran.shelf.calls)
        (sink_of S.left_out []) (sink_of S.left_out ran.out) (E.state err) (E.state ran.err)
        ran.status) }
    ensures silent { IfOk result (λ ran. SaysNothing (E.state err) (E.state ran.err) ran.status) }
    ensures status_words { IfOk result (λ ran. WordsStatus words.now (E.state err)
        (E.state ran.err) ran.status) }
    ensures status_form { IfOk result (λ ran. RefusedStatus command_of 3 words.now
        (shelf_of S.files S.left []) (shelf_of S.files S.left ran.shelf.calls) (E.state err)
        (E.state ran.err) ran.status) }
    ensures status_limit { IfOk result (λ ran. RefusedStatus command_of 4 words.now
        (shelf_of S.files S.left []) (shelf_of S.files S.left ran.shelf.calls) (E.state err)
        (E.state ran.err) ran.status) }
    ensures status_read { IfOk result (λ ran. ReadStatus command_of words.now
        (shelf_of S.files S.left []) (shelf_of S.files S.left ran.shelf.calls) (E.state err)
        (E.state ran.err) ran.status) }
    ensures status_write { IfOk result (λ ran. WriteStatus command_of words.now
        (shelf_of S.files S.left []) (shelf_of S.files S.left ran.shelf.calls)
        (sink_of S.left_out []) (sink_of S.left_out ran.out) (E.state err) (E.state ran.err)
        ran.status) }
    ensures status_memory { IfOk result (λ ran. MemoryStatus (E.state err) (E.state ran.err)
        ran.status) }
    ensures status_loop { IfOk result (λ ran. RefusedStatus command_of 8 words.now
        (shelf_of S.files S.left []) (shelf_of S.files S.left ran.shelf.calls) (E.state err)
        (E.state ran.err) ran.status) }
    ensures no_other_status { IfOk result (λ ran. IsRunStatus ran.status) }
    ensures complete { IfOk result (λ ran. IsComplete command_of words.now
        (shelf_of S.files S.left []) (shelf_of S.files S.left ran.shelf.calls)
        (sink_of S.left_out []) (sink_of S.left_out ran.out) ran.status) }

    // What is as before.
    ensures refused_files { IfOk result (λ ran. KeepsFiles (shelf_of S.files S.left [])
        (shelf_of S.files S.left ran.shelf.calls) (sink_of S.left_out [])
        (sink_of S.left_out ran.out) ran.status) }
    ensures other_files { IfOk result (λ ran. KeepsOthers command_of words.now
        (shelf_of S.files S.left []) (shelf_of S.files S.left ran.shelf.calls)) }

    // Whatever it answers, only files that the words name were asked for, read or written.
    ensures named_files { IfOk result (λ ran. NamedFiles command_of words.now
        (shelf_of S.files S.left []) (shelf_of S.files S.left ran.shelf.calls)) }

    // The calls are in two halves. Up to a state between, only files that the command reads are asked for, and no
    // file is changed; from there on only files that it writes. A shelf tells names of calls and no kinds, so of
    // their order this says no more than `named_files`.
    ensures reads_first { IfOk result (λ ran. ReadsFirst command_of words.now
        (shelf_of S.files S.left []) (shelf_of S.files S.left ran.shelf.calls)) }

    // With status 0 of `grow` every output cell is the sample cell that the written map names; each placement
    // of the written record keeps its fixed cells and has the least total cost of seams, old ones
    // included, of all choices between old and new; no record of a round raises the total; the record stands
    // and replays to the map; and the files are such that `check` accepts them.
    ensures headline { IfOk result (λ ran. GrowHeadline words.now (shelf_of S.files S.left [])
        (shelf_of S.files S.left ran.shelf.calls) ran.status) }

    // Out file and map are a function of the words and the sample files.
    ensures one_output { IfOk result (λ ran. OneOutput words.now (shelf_of S.files S.left [])
        (shelf_of S.files S.left ran.shelf.calls) ran.status) }

    // The report is that of the written map and record: the size, how many placements and rounds, and what the
    // seams cost in all. It is a function of the words and the sample files, too.
    ensures grow_report { IfOk result (λ ran. GrowReport words.now (shelf_of S.files S.left [])
        (shelf_of S.files S.left ran.shelf.calls) (sink_of S.left_out [])
        (sink_of S.left_out ran.out) ran.status) }

    // With status 0 of `quilt` every output cell is the sample cell that the written map names; each boundary of
    // the written record is the first of the least ones through its strip; the record stands and replays to
    // the map; and the files are such that `check` accepts them. All three are a function of the words and
    // the sample file, and the report is that of the record.
    ensures quilted { IfOk result (λ ran. QuiltHeadline words.now (shelf_of S.files S.left [])
        (shelf_of S.files S.left ran.shelf.calls) ran.status) }
    ensures one_quilt { IfOk result (λ ran. OneQuiltOutput words.now (shelf_of S.files S.left [])
        (shelf_of S.files S.left ran.shelf.calls) ran.status) }
    ensures quilt_report { IfOk result (λ ran. QuiltReport words.now (shelf_of S.files S.left [])
        (shelf_of S.files S.left ran.shelf.calls) (sink_of S.left_out [])
        (sink_of S.left_out ran.out) ran.status) }

    // With status 0 of `loop` each frame is the sample's frame that the written map names; these frames are a
    // closed walk of the asked length, such that none of that length costs less; and the files are such
    // that `check` accepts them. Of all such walks it is the first by the middles of its parts, so all three
    // files and the report are a function of the words and the sample file.
    ensures looped { IfOk result (λ ran. LoopHeadline words.now (shelf_of S.files S.left [])
        (shelf_of S.files S.left ran.shelf.calls) ran.status) }
    ensures one_loop { IfOk result (λ ran. OneLoop words.now (shelf_of S.files S.left [])
        (shelf_of S.files S.left ran.shelf.calls) (sink_of S.left_out [])
        (sink_of S.left_out ran.out) ran.status) }

    // `check` answers 0 exactly where the files stand, and 1 exactly where they are in their forms and
    // limits and don't, with the first rule that they break. In what it accepts each cell of the out file is
    // the samples' cell that the map file names, and the records are least, whoever made them.
    ensures checked { IfOk result (λ ran. CheckHeadline words.now (shelf_of S.files S.left [])
        (shelf_of S.files S.left ran.shelf.calls) (sink_of S.left_out [])
        (sink_of S.left_out ran.out) ran.status) }

    // With status 0 of `trial` the report is that of the run of the words over the sample of their
    // number, of whose records each stands; there is one such report.
    ensures tried { IfOk result (λ ran. TrialHeadline words.now (shelf_of S.files S.left [])
        (shelf_of S.files S.left ran.shelf.calls) (sink_of S.left_out [])
        (sink_of S.left_out ran.out) ran.status) }

    // With status 0 of `upgrade` the new map and record have the values of the old ones in version 2, and
    // `check` says of the new pair what it says of the old one.
    ensures upgraded { IfOk result (λ ran. UpgradeHeadline words.now (shelf_of S.files S.left [])
        (shelf_of S.files S.left ran.shelf.calls) (sink_of S.left_out [])
        (sink_of S.left_out ran.out) ran.status) }

    // With status 0 of `tile` every output cell is the sample cell that the written map names; the map is the
    // last one of the run of the words, each choice of which has the least total cost of seams, those across
    // the edges included; out file and map are read again as what was written; and the report is that of the
    // run. Out file, map and report are a function of the words and the sample file.
    ensures tiled { IfOk result (λ ran. TileHeadline words.now (shelf_of S.files S.left [])
        (shelf_of S.files S.left ran.shelf.calls) (sink_of S.left_out [])
        (sink_of S.left_out ran.out) ran.status) }
    ensures one_tile { IfOk result (λ ran. OneTile words.now (shelf_of S.files S.left [])
        (shelf_of S.files S.left ran.shelf.calls) (sink_of S.left_out [])
        (sink_of S.left_out ran.out) ran.status) }

    // With status 0 of `merge` every output cell is the same cell of the picture that the written map names; each
    // marked cell is its own picture's; and the map is that of the merge, in which each picture from the second on
    // is laid by the choice of least total cost of all that keep the marked cells. Out file and map are read again
    // as what was written. They are a function of the pictures and the marks, and so is the report, which is that
    // of the map.
    ensures merged { IfOk result (λ ran. MergeHeadline words.now (shelf_of S.files S.left [])
        (shelf_of S.files S.left ran.shelf.calls) ran.status) }
    ensures one_merge { IfOk result (λ ran. OneMerge words.now (shelf_of S.files S.left [])
        (shelf_of S.files S.left ran.shelf.calls) ran.status) }
    ensures merge_report { IfOk result (λ ran. MergeReport words.now (shelf_of S.files S.left [])
        (shelf_of S.files S.left ran.shelf.calls) (sink_of S.left_out [])
        (sink_of S.left_out ran.out) ran.status) }

    // With status 0 of `transfer` every output cell is the sample cell that the written map names, in the target's
    // size; the record is that of the run of the words over sample and target; each of its boundaries is the first
    // of the least ones through its strip; it stands and replays to the map; and the files are such that `check`
    // accepts them. All three are a function of the words and the two files, and so is the report, which is that of
    // the record and of how far the output is from the target.
    ensures transferred { IfOk result (λ ran. TransferHeadline words.now
        (shelf_of S.files S.left []) (shelf_of S.files S.left ran.shelf.calls) ran.status) }
    ensures one_transfer { IfOk result (λ ran. OneTransfer words.now (shelf_of S.files S.left [])
        (shelf_of S.files S.left ran.shelf.calls) ran.status) }
    ensures transfer_report { IfOk result (λ ran. TransferReport words.now
        (shelf_of S.files S.left []) (shelf_of S.files S.left ran.shelf.calls)
        (sink_of S.left_out []) (sink_of S.left_out ran.out) ran.status) }
{
    let mut system = system;
    let Ok(_held) = hold_streams(&mut system) else {
        return Err(Fault::Write(FileOf::Report));
    };
    let Ok(shelf) = RealShelf::<S>::new(system, alloc) else {
        return Err(Fault::NoMemory);
    };
    let mut ran = Ran {
        status: 0,
        shelf,
        out,
        err,
        last: last_output(words),
    };
    ran.status = run(alloc, words, &mut ran.shelf, &mut ran.out, &mut ran.err);
    ran.shelf.opens_what_is_asked();
    Ok(ran)
}
