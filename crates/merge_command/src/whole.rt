// The command that merges pictures.
ghost use Rattle.std.specs.Prelude.{◌≡◌};
ghost use Rattle.shelf_traits.specs.Files.{OnlyWrites};
ghost use Rattle.job_words.specs.MergeWords.{IsMergeJob};
ghost use Rattle.command.specs.Outcomes.{Leaves};
ghost use Rattle.command.specs.Writing.{WritesRun, text_names};
ghost use Rattle.merge_command.specs.MergeCommand.{IsMade, merge_command, merge_files, merge_summary};

use crate::plan::{Merged, plan};
use command::{Then, write_run};
use command_files::{CellMapFile, OutFile, OutWriter};
use job_words::MergeJob;
use shelf_traits::{Shelf, Sink};
use source_map::Version;
use std::alloc::Global;
use synth_report::{Fault, FileOf, Summary};

// The summary of a merge.
fn summary_of(made: &Merged) -> Summary
    ensures { result ≡ merge_summary made.now }
{
    let sizes = made.pictures.volume.sizes();
    Summary::Merge {
        size: sizes.at(1),
        pictures: sizes.len(),
        seams: made.seams,
    }
}

// Writes the picture of a merge, its map, and the report.
fn write_merge<S: Shelf, O: Sink>(
    job: &MergeJob,
    made: &Merged,
    shelf: &mut S,
    out: &mut O,
) -> Result<Summary, Fault>
    requires { IsMade made.now }
    ensures wrote { WritesRun (merge_files job.now made.now) (merge_summary made.now)
        (S.state shelf.old) (S.state shelf.new) (O.state out.old) (O.state out.new) result }
    ensures writes { OnlyWrites (text_names (merge_files job.now made.now))
        (S.state shelf.old) (S.state shelf.new) }
{
    let picture = OutFile {
        name: &job.out,
        writer: OutWriter::Picture {
            maxval: made.pictures.maxval,
        },
        picture: made.canvas.picture(),
    };
    let map = CellMapFile {
        part: FileOf::Map,
        name: &job.map,
        map: made.canvas.map(),
        samples: made.pictures.volume.sizes(),
        version: Version::Two,
    };
    let summary = summary_of(made);
    write_run(&mut Then(picture, map), summary, shelf, out)
}

/// Merges pictures: reads them in the order of their numbers, and then their marks, joins them along least seams
/// that keep the marked cells, and writes the picture, then the map and the report. All is computed before the first
/// file is begun, and no memory is taken after it. The method is that of Kwatra et al., "Graphcut textures" (2003),
/// with the strokes of Agarwala et al., "Interactive digital photomontage" (2004).
pub fn merge_pictures<S: Shelf, O: Sink>(
    alloc: Global,
    job: &MergeJob,
    shelf: &mut S,
    out: &mut O,
) -> Result<Summary, Fault>
    requires { IsMergeJob job.now }
    ensures { Leaves (merge_command job.now)
        (S.state shelf.old) (S.state shelf.new) (O.state out.old) (O.state out.new) result }
{
    let made = plan(alloc, job, shelf)?;
    let answer = write_merge(job, &made, shelf, out);
    // Given to `drop`, the end of all that was made is proved once, by itself.
    drop(made);
    answer
}
