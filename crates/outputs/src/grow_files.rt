// The files of a growth, and the report.
ghost use Rattle.std.specs.Prelude.{◌≡◌};
ghost use Rattle.shelf_traits.specs.Files.{OnlyWrites};
ghost use Rattle.job_words.specs.GrowWords.{IsGrowJob};
ghost use Rattle.command.specs.Writing.{WritesRun, text_names};
ghost use Rattle.command_files.specs.Outs.{out_writer};
ghost use Rattle.outputs.specs.Growths.{IsMade, growth_files, growth_summary, head_over};

use crate::grown_map::{GrownMap, version_of};
use crate::growth::Growth;
use cells::Volume;
use cert_file::Head;
use command::{Then, write_run};
use command_files::{CutsFile, OutFile, OutWriter};
use job_words::GrowJob;
use shelf_traits::{Shelf, Sink};
use synth_report::{Fault, FileOf, Summary};

// The summary of a growth.
fn summary_of(job: &GrowJob, growth: &Growth) -> Summary
    requires made { IsMade job.now growth.now }
    ensures { result ≡ growth_summary job.now growth.now }
{
    let rounds = growth.grown.rounds;
    Summary::Grow {
        size: job.size,
        placements: growth.grown.cuts.as_slice().len() as u64 - u64::from(rounds),
        rounds: u64::from(rounds),
        seams: growth.seams,
    }
}

// The head of the record of an output.
fn head_over(job: &GrowJob, volume: &Volume) -> Head
    ensures { result ≡ head_over job.now.size volume.now }
{
    Head {
        output: job.size,
        samples: volume.sizes(),
        version: version_of(&volume.sizes()),
    }
}

/// Writes the picture of a growth, its map, its record, and the report. No memory is taken.
pub fn write_growth<S: Shelf, O: Sink>(
    job: &GrowJob,
    growth: &Growth,
    writer: OutWriter,
    shelf: &mut S,
    out: &mut O,
) -> Result<Summary, Fault>
    requires job { IsGrowJob job.now }
    requires made { IsMade job.now growth.now }
    requires writer { writer ≡ out_writer growth.now.samples.form job.now.size }
    ensures wrote { WritesRun (growth_files job.now growth.now) (growth_summary job.now growth.now)
        (S.state shelf.old) (S.state shelf.new) (O.state out.old) (O.state out.new) result }
    ensures writes { OnlyWrites (text_names (growth_files job.now growth.now))
        (S.state shelf.old) (S.state shelf.new) }
{
    let picture = OutFile {
        name: &job.names.out,
        writer,
        picture: growth.grown.canvas.picture(),
    };
    let map = GrownMap {
        name: &job.names.map,
        turns: job.turns,
        map: growth.grown.canvas.map(),
        samples: &growth.sizes,
    };
    let record = CutsFile {
        part: FileOf::Record,
        name: &job.names.record_file,
        head: head_over(job, &growth.samples.volume),
        cuts: growth.grown.cuts.as_slice(),
    };
    let summary = summary_of(job, growth);
    let mut files = Then(picture, Then(map, record));
    let answer = write_run(&mut files, summary, shelf, out);
    // Given to `drop`, the end of the files is proved once, by itself.
    drop(files);
    answer
}
