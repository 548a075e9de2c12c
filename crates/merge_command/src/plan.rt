// What is read and computed before a file is begun.
ghost use Rattle.std.specs.Prelude.{◌≡◌, ◌↔◌, IfOk, IsTrue};
ghost use Rattle.cells.specs.Cells.{IsOnePart};
ghost use Rattle.netpbm_p6.specs.Pictures.{IsSound};
ghost use Rattle.shelf_traits.specs.Files.{OnlyReads};
ghost use Rattle.job_words.specs.MergeWords.{IsMergeJob};
ghost use Rattle.command.specs.Commands.{names_in};
ghost use Rattle.command.specs.Outcomes.{Plans};
ghost use Rattle.merge_command.specs.Pictures.{AreSoundPictures};
ghost use Rattle.merge_command.specs.MergeCommand.{IsMade, SetAgainst, merge_command, merge_files, merge_summary};

use crate::pictures::{Pictures, read_pictures};
use costs::total;
use job_words::MergeJob;
use limits::MOST_OUTPUT_CELLS;
use map_canvas::Canvas;
use netpbm_p6::Picture;
use photo_merge::{first_bad_mark, merge_canvas};
use sample_files::read_part;
use shelf_traits::{Shelf, What};
use std::alloc::Global;
use synth_report::{Fault, FileOf};

/// The pictures that were read, the canvas merged from them, and what its seams cost in all.
#[derive(Drop)]
pub struct Merged {
    pub pictures: Pictures,
    pub canvas: Canvas,
    pub seams: u64,
}

// Whether marks have the size of the pictures.
fn is_sized(pictures: &Pictures, marks: &Picture) -> bool
    requires { IsOnePart marks.now.volume }
    ensures { IsTrue result ↔ (marks.now.volume.size ≡ pictures.now.volume.size) }
{
    marks.volume.size() == pictures.volume.sizes().at(1)
}

// Sets the marks against the pictures, and then the pictures against the bound of an output.
fn set_against(pictures: &Pictures, marks: &Picture) -> Result<(), Fault>
    requires pictures { AreSoundPictures pictures.now }
    requires marks { IsSound marks.now }
    ensures { SetAgainst pictures.now marks.now result }
{
    // Called for its contract only: it shows the prover that the pictures are a volume.
    let _k = pictures.volume.samples();
    if !is_sized(pictures, marks) {
        return Err(Fault::Unlike(FileOf::Marks));
    }
    let sizes = pictures.volume.sizes();
    if let Some(index) = first_bad_mark(&marks.volume, sizes.len()) {
        return Err(Fault::Mark(index));
    }
    let cells = sizes.at(1).cells() as u64;
    if cells > MOST_OUTPUT_CELLS {
        return Err(Fault::Limit {
            what: What::Output,
            number: cells,
            bound: MOST_OUTPUT_CELLS,
        });
    }
    Ok(())
}

/// Reads the pictures and the marks, and computes all that is to be written. Nothing is written yet.
pub(crate) fn plan<S: Shelf>(alloc: Global, job: &MergeJob, shelf: &mut S) -> Result<Merged, Fault>
    requires { IsMergeJob job.now }
    ensures planned { Plans (merge_command job.now) (merge_files job.now) merge_summary
        (S.state shelf.old) (S.state shelf.new) result }
    ensures made { IfOk result IsMade }
    ensures reads { OnlyReads (names_in (merge_command job.now).reads)
        (S.state shelf.old) (S.state shelf.new) }
{
    let pictures = match read_pictures(alloc, shelf, &job.sample, job.more.as_slice()) {
        Ok(pictures) => pictures,
        Err(fault) => return Err(fault),
    };
    let marks = match read_part(alloc, shelf, FileOf::Marks, &job.marks) {
        Ok(marks) => marks,
        // Given to `drop`, each end is proved once, by itself.
        Err(fault) => {
            drop(pictures);
            return Err(fault);
        }
    };
    // Called for its contract only: it shows the prover that the pictures are a volume.
    let _k = pictures.volume.samples();
    if let Err(fault) = set_against(&pictures, &marks) {
        drop(marks);
        drop(pictures);
        return Err(fault);
    }
    let merged = merge_canvas(alloc, &pictures.volume, &marks.volume);
    drop(marks);
    let canvas = match merged {
        Ok(canvas) => canvas,
        Err(_) => {
            drop(pictures);
            return Err(Fault::NoMemory);
        }
    };
    let seams = total(&canvas, &pictures.volume);
    Ok(Merged {
        pictures,
        canvas,
        seams,
    })
}
