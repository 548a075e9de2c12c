// What is read and computed before a file is begun.
ghost use Rattle.std.specs.Prelude.{◌≡◌, IfOk};
ghost use Rattle.shelf_traits.specs.Files.{OnlyReads};
ghost use Rattle.job_words.specs.TransferWords.{IsTransferJob};
ghost use Rattle.netpbm_p6.specs.Pictures.{IsSound};
ghost use Rattle.command.specs.Commands.{names_in};
ghost use Rattle.command.specs.Outcomes.{Plans};
ghost use Rattle.quilt_command.specs.Transfers.{IsMadeTransfer, made_summary, transfer_command, transfer_files, transfer_run_of};

use block_strips::QuiltPlan;
use job_words::TransferJob;
use netpbm_p6::Picture;
use outputs::{PictureQuilt, quilt_fault, within_output};
use quilted::QuiltRun;
use sample_files::{read_picture, read_target};
use shelf_traits::Shelf;
use std::alloc::Global;
use synth_report::Fault;
use transfer::transfer_canvas;

/// The pictures that were read, and the target painted with blocks of the sample.
#[derive(Drop)]
pub struct Transferred {
    pub target: Picture,
    pub quilt: PictureQuilt,
}

/// What is asked of a transfer: an output of the target's size.
pub(crate) fn run_of(job: &TransferJob, target: &Picture) -> QuiltRun
    requires { IsSound target.now }
    ensures { result ≡ transfer_run_of job.now target.now }
{
    QuiltRun {
        size: target.volume.size(),
        plan: QuiltPlan {
            block: job.block,
            overlap: job.overlap,
            tol: job.tol,
        },
        seed: job.seed,
    }
}

/// Reads both pictures, and paints the target with blocks of the sample.
pub(crate) fn plan<S: Shelf>(
    alloc: Global,
    job: &TransferJob,
    shelf: &mut S,
) -> Result<Transferred, Fault>
    requires { IsTransferJob job.now }
    ensures planned { Plans (transfer_command job.now) (transfer_files job.now) made_summary
        (S.state shelf.old) (S.state shelf.new) result }
    ensures made { IfOk result (IsMadeTransfer job.now) }
    ensures reads { OnlyReads (names_in (transfer_command job.now).reads)
        (S.state shelf.old) (S.state shelf.new) }
{
    let sample = match read_picture(alloc, shelf, &job.names.sample) {
        Ok(sample) => sample,
        Err(fault) => return Err(fault),
    };
    let target = match read_target(alloc, shelf, sample.maxval, &job.target) {
        Ok(target) => target,
        // Given to `drop`, each end is proved once, by itself.
        Err(fault) => {
            drop(sample);
            return Err(fault);
        }
    };
    let asked = run_of(job, &target);
    if let Err(fault) = within_output(asked.size.w, asked.size.h) {
        drop(target);
        drop(sample);
        return Err(fault);
    }
    let quilted = match transfer_canvas(alloc, &asked, job.alpha, &target.volume, &sample.volume) {
        Ok(quilted) => quilted,
        Err(error) => {
            drop(target);
            drop(sample);
            return Err(quilt_fault(error));
        }
    };
    Ok(Transferred {
        target,
        quilt: PictureQuilt { sample, quilted },
    })
}
