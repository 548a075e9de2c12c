// The files of a tiling, and the report.
ghost use Rattle.std.specs.Prelude.{◌≡◌};
ghost use Rattle.shelf_traits.specs.Files.{OnlyWrites};
ghost use Rattle.job_words.specs.TileWords.{IsTileJob};
ghost use Rattle.command.specs.Writing.{WritesRun, text_names};
ghost use Rattle.command_files.specs.Outs.{out_writer};
ghost use Rattle.outputs.specs.Tilings.{IsTilingMade, tile_files, tile_summary};

use crate::tiled::TiledSample;
use command::{Then, write_run};
use command_files::{CellMapFile, OutFile, OutWriter};
use job_words::TileJob;
use shelf_traits::{Shelf, Sink};
use source_map::Version;
use synth_report::{Fault, FileOf, Summary};

/// Writes the picture of a tiling, its map, and the report. No memory is taken.
pub fn write_tiling<S: Shelf, O: Sink>(
    job: &TileJob,
    made: &TiledSample,
    writer: OutWriter,
    shelf: &mut S,
    out: &mut O,
) -> Result<Summary, Fault>
    requires job { IsTileJob job.now }
    requires made { IsTilingMade job.now made.now }
    requires writer { writer ≡ out_writer made.now.sample.form job.now.size }
    ensures wrote { WritesRun (tile_files job.now made.now) (tile_summary job.now made.now)
        (S.state shelf.old) (S.state shelf.new) (O.state out.old) (O.state out.new) result }
    ensures writes { OnlyWrites (text_names (tile_files job.now made.now))
        (S.state shelf.old) (S.state shelf.new) }
{
    let picture = OutFile {
        name: &job.out,
        writer,
        picture: made.tiled.canvas.picture(),
    };
    let map = CellMapFile {
        part: FileOf::Map,
        name: &job.map,
        map: made.tiled.canvas.map(),
        samples: made.sample.volume.sizes(),
        version: Version::One,
    };
    let summary = Summary::Tile {
        size: job.size,
        placements: made.tiled.placements,
        seams: made.seams,
    };
    let mut files = Then(picture, map);
    let answer = write_run(&mut files, summary, shelf, out);
    // Given to `drop`, the end of the files is proved once, by itself.
    drop(files);
    answer
}
