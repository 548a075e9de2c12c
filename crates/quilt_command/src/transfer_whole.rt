// The command that paints a target with blocks of a sample.
ghost use Rattle.std.specs.Prelude.{◌≡◌, ◌≤◌, ◌^◌, length};
ghost use Rattle.cells.specs.Cells.{bytes_of};
ghost use Rattle.shelf_traits.specs.Files.{OnlyWrites};
ghost use Rattle.job_words.specs.TransferWords.{IsTransferJob};
ghost use Rattle.command.specs.Outcomes.{Leaves};
ghost use Rattle.command.specs.Writing.{WritesRun, text_names};
ghost use Rattle.targets.specs.Targets.{matched};
ghost use Rattle.quilt_command.specs.Transfers.{IsMadeTransfer, made_summary, transfer_command, transfer_files};

use crate::transfer_plan::{Transferred, plan, run_of};
use cells::Volume;
use job_words::TransferJob;
use lane_kernels::ssd;
use outputs::write_quilt;
use shelf_traits::{Shelf, Sink};
use std::alloc::Global;
use synth_report::{Fault, Summary};

// How far a picture is from another one of its size.
fn match_of(picture: &Volume, target: &Volume) -> u64
    requires long { length (bytes_of picture.now) ≡ length (bytes_of target.now) }
    requires few { length (bytes_of picture.now) ≤ 2 ^ 26 }
    ensures { result ≡ matched picture.now target.now }
{
    ssd(picture.bytes(), target.bytes())
}

// The summary of a transfer.
fn summary_of(job: &TransferJob, made: &Transferred) -> Summary
    requires { IsMadeTransfer job.now made.now }
    ensures { result ≡ made_summary made.now }
{
    let quilted = &made.quilt.quilted;
    Summary::Transfer {
        size: made.target.volume.size(),
        blocks: quilted.blocks.as_slice().len() as u64,
        boundaries: quilted.boundaries,
        cost: quilted.cost,
        matched: match_of(quilted.canvas.picture(), &made.target.volume),
    }
}

// Writes the picture of a transfer, its map, its record, and the report.
fn write<S: Shelf, O: Sink>(
    job: &TransferJob,
    made: &Transferred,
    shelf: &mut S,
    out: &mut O,
) -> Result<Summary, Fault>
    requires { IsMadeTransfer job.now made.now }
    ensures wrote { WritesRun (transfer_files job.now made.now) (made_summary made.now)
        (S.state shelf.old) (S.state shelf.new) (O.state out.old) (O.state out.new) result }
    ensures writes { OnlyWrites (text_names (transfer_files job.now made.now))
        (S.state shelf.old) (S.state shelf.new) }
{
    let summary = summary_of(job, made);
    write_quilt(
        &run_of(job, &made.target),
        &job.names,
        &made.quilt,
        summary,
        shelf,
        out,
    )
}

/// Paints a target with blocks of a sample. It reads both pictures, and lays blocks along least boundaries, each at
/// a place that agrees with what is there and with the target. It writes the picture in the target's size, then the
/// map, the record, and the report. All is computed before the first file is begun, and no memory is taken after it.
/// The method is that of Efros and Freeman, "Image quilting" (2001), section 3, in one pass.
pub fn transfer_picture<S: Shelf, O: Sink>(
    alloc: Global,
    job: &TransferJob,
    shelf: &mut S,
    out: &mut O,
) -> Result<Summary, Fault>
    requires { IsTransferJob job.now }
    ensures { Leaves (transfer_command job.now)
        (S.state shelf.old) (S.state shelf.new) (O.state out.old) (O.state out.new) result }
{
    let made = plan(alloc, job, shelf)?;
    let answer = write(job, &made, shelf, out);
    // Given to `drop`, the end of all that was made is proved once, by itself.
    drop(made);
    answer
}
