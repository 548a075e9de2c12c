// The files of a quilt, and the report.
ghost use Rattle.shelf_traits.specs.Files.{OnlyWrites};
ghost use Rattle.command.specs.Writing.{WritesRun, text_names};
ghost use Rattle.outputs.specs.BlockOutputs.{CanBeWritten, quilt_files};

use crate::quilt::PictureQuilt;
use crate::record_file::BlocksFile;
use cert_file::Head;
use command::{Then, write_run};
use command_files::{CellMapFile, OutFile, OutWriter};
use job_words::Names;
use quilted::QuiltRun;
use shelf_traits::{Shelf, Sink};
use source_map::Version;
use synth_report::{Fault, FileOf, Summary};

/// Writes the picture of a quilt with the sample's maxval, its map, its record, and the report. No memory is
/// taken.
pub fn write_quilt<S: Shelf, O: Sink>(
    asked: &QuiltRun,
    names: &Names,
    made: &PictureQuilt,
    summary: Summary,
    shelf: &mut S,
    out: &mut O,
) -> Result<Summary, Fault>
    requires made { CanBeWritten asked.now made.now }
    ensures wrote { WritesRun (quilt_files names.now asked.now.size made.now) summary
        (S.state shelf.old) (S.state shelf.new) (O.state out.old) (O.state out.new) result }
    ensures writes { OnlyWrites (text_names (quilt_files names.now asked.now.size made.now))
        (S.state shelf.old) (S.state shelf.new) }
{
    let volume = &made.sample.volume;
    let picture = OutFile {
        name: &names.out,
        writer: OutWriter::Picture {
            maxval: made.sample.maxval,
        },
        picture: made.quilted.canvas.picture(),
    };
    let map = CellMapFile {
        part: FileOf::Map,
        name: &names.map,
        map: made.quilted.canvas.map(),
        samples: volume.sizes(),
        version: Version::One,
    };
    let record = BlocksFile {
        name: &names.record_file,
        head: Head {
            output: asked.size,
            samples: volume.sizes(),
            version: Version::One,
        },
        blocks: made.quilted.blocks.as_slice(),
    };
    let mut files = Then(picture, Then(map, record));
    let answer = write_run(&mut files, summary, shelf, out);
    // Given to `drop`, the end of the files is proved once, by itself.
    drop(files);
    answer
}
