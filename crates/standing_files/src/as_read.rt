// A record file judged as it is read, so that its records are never in memory together.
ghost use Rattle.std.specs.Prelude.{◌≡◌, ◌<◌, ◌^◌, ◌∷◌, [], IfOk};
ghost use Rattle.shelf_traits.specs.Files.{OnlyReadsFile};
ghost use Rattle.file_bytes.specs.Reading.{Follows};
ghost use Rattle.cells.specs.Cells.{sizes_of};
ghost use Rattle.cells.specs.Places.{IsSmall};
ghost use Rattle.map_canvas.specs.Canvases.{IsCanvas, StandsOver};
ghost use Rattle.map_canvas.specs.Maps.{empty_map};
ghost use Rattle.cert_file.specs.RecordFiles.{IsRecordFile, IsWalkFile};
ghost use Rattle.sample_files.specs.Several.{AreSoundSamples};
ghost use Rattle.standing_files.specs.AsRead.{FindsInRecords, IsCanvasSize, IsOfColours, JudgesAfter, JudgesRecordFile, JudgesToEnd, LeavesCells, TriesTogether, read_as};
ghost use Rattle.standing_files.specs.Standing.{IsVerdict, map_output};
ghost use Rattle.standing_files.specs.declared.verdict.Verdict.TheVariants.{Stands};

use crate::blocks_as_read::judge_blocks_to_end;
use crate::cuts_as_read::judge_cuts_to_end;
use crate::picture::judge_picture;
use crate::records::{first_other_source, judge_walk_record};
use crate::together::go_together;
use crate::verdict::{MAP_RULE, TOGETHER_RULE, Verdict};
use cells::{Size, Volume};
use cert_file::{BLOCKS, CUTS, Items, RecordFile, read_record_head, read_walk_file};
use file_bytes::FileReader;
use map_canvas::{Canvas, Map};
use sample_files::{Sample, Samples};
use shelf_traits::{ReadError, Shelf};
use source_map::MapFile;
use std::alloc::{AllocError, Global};

// What rule 15 says of files.
fn try_together(
    samples: &Samples,
    out: &Sample,
    map_file: &MapFile,
    record_file: &RecordFile,
) -> Verdict
    ensures { TriesTogether samples.now out.now map_file.now record_file.now result }
{
    if go_together(samples, out, map_file, record_file) {
        Verdict::Stands
    } else {
        Verdict::Fails {
            number: 0,
            rule: TOGETHER_RULE,
            place: 0,
        }
    }
}

// The size of a canvas for records: that of the map, or of one cell where nothing will be judged.
fn canvas_size(before: Verdict, map_file: &MapFile) -> Size
    ensures is { IsCanvasSize before map_file.now result }
    ensures small { IsSmall result }
{
    match (before, map_file) {
        (Verdict::Stands, MapFile::Cells { map, .. }) => map.size(),
        _ => Size { w: 1, h: 1, f: 1 },
    }
}

// What rules 16 and 17 say of a map of cells and a picture, where records leave a map; where a rule of records was
// broken, that.
fn judge_left(
    found: Verdict,
    samples: &Volume,
    picture: &Volume,
    map_file: &MapFile,
    left: &Map,
) -> Verdict
    requires one { found ≡ Stands → sizes_of picture.now ≡ map_output map_file.now ∷ [] }
    ensures { JudgesAfter found samples.now picture.now map_file.now left.now result }
{
    match found {
        Verdict::Stands => {}
        fails => return fails,
    }
    if let MapFile::Cells { map, .. } = map_file {
        match first_other_source(left, map) {
            None => {}
            Some(i) => {
                return Verdict::Fails {
                    number: 0,
                    rule: MAP_RULE,
                    place: i as u64,
                };
            }
        }
    }
    judge_picture(samples, picture, map_file)
}

// Judges files whose record file is of a walk.
fn judge_walk_file(
    alloc: Global,
    samples: &Samples,
    out: &Sample,
    map_file: &MapFile,
    record_file: &RecordFile,
) -> Result<Verdict, AllocError>
    requires record_file { IsRecordFile record_file.now }
    requires walk { IsWalkFile record_file.now }
    requires sound { AreSoundSamples samples.now }
    ensures { IfOk result (IsVerdict samples.now out.now map_file.now record_file.now) }
{
    match try_together(samples, out, map_file, record_file) {
        Verdict::Stands => {}
        fails => return Ok(fails),
    }
    match judge_walk_record(alloc, samples, map_file, record_file)? {
        Verdict::Stands => Ok(judge_picture(&samples.volume, &out.volume, map_file)),
        fails => Ok(fails),
    }
}

// Reads the records of a file with the head and kind of another, to the end of the file, and judges each
// over the canvas where no rule was broken before.
fn judge_records_to_end<S: Shelf>(
    alloc: Global,
    canvas: &mut Canvas,
    samples: &Volume,
    before: Verdict,
    file: &mut FileReader,
    none: &RecordFile,
    shelf: &mut S,
    name: &str,
) -> Result<Verdict, ReadError>
    requires follows { Follows name.now (S.state shelf.old) file.old }
    requires room { file.old.at < 2 ^ 31 }
    requires over { StandsOver canvas.old samples.now }
    requires canvas { IsCanvas canvas.old }
    requires empty { canvas.old.map ≡ empty_map canvas.old.map.size }
    requires cells { LeavesCells none.now }
    requires colours { before ≡ Stands → IsOfColours none.now samples.now }
    ensures answer { JudgesToEnd
        (FindsInRecords samples.now canvas.old.map.size before canvas.new.map none.now)
        name.now file.old.at (S.state shelf.old) (S.state shelf.new) (read_as none.now) result }
    ensures reads { OnlyReadsFile name.now (S.state shelf.old) (S.state shelf.new) }
{
    match none {
        RecordFile::Cuts { head, .. } => {
            judge_cuts_to_end(alloc, canvas, samples, before, file, head, shelf, name)
        }
        RecordFile::Blocks { head, .. } => {
            judge_blocks_to_end(alloc, canvas, samples, before, file, head, shelf, name)
        }
        RecordFile::Walk { .. } => unreachable!(),
    }
}

// Judges files whose record file is of cuts or of blocks and is read from after its head on. `none` has its
// head and kind, and no record: whether files go together doesn't depend on the records.
fn judge_cells<S: Shelf>(
    alloc: Global,
    samples: &Samples,
    out: &Sample,
    map_file: &MapFile,
    file: &mut FileReader,
    none: &RecordFile,
    shelf: &mut S,
    name: &str,
) -> Result<Verdict, ReadError>
    requires follows { Follows name.now (S.state shelf.old) file.old }
    requires room { file.old.at < 2 ^ 31 }
    requires sound { AreSoundSamples samples.now }
    requires cells { LeavesCells none.now }
    ensures answer { JudgesToEnd (IsVerdict samples.now out.now map_file.now)
        name.now file.old.at (S.state shelf.old) (S.state shelf.new) (read_as none.now) result }
    ensures reads { OnlyReadsFile name.now (S.state shelf.old) (S.state shelf.new) }
{
    let before = try_together(samples, out, map_file, none);
    let size = canvas_size(before, map_file);
    let volume = &samples.volume;
    let mut canvas = Canvas::empty(alloc, size, volume.samples())?;
    let found = judge_records_to_end(alloc, &mut canvas, volume, before, file, none, shelf, name);
    let verdict = match found {
        Ok(found) => Ok(judge_left(found, volume, &out.volume, map_file, canvas.map())),
        Err(error) => Err(error),
    };
    drop(canvas);
    verdict
}

/// Reads a record file to its end, and tries whether the files stand: first whether they go together, then each
/// record over the map that the records before it leave, then whether the records leave the map of the map file,
/// and last each cell of the out picture. Each record of cuts or of blocks is judged as it comes and then dropped;
/// only a walk is read whole before. After the first broken rule the file is still read: what `read_record_file`
/// refuses is refused here, whatever its records are. It takes one canvas, and memory for one record.
pub fn judge_record_file<S: Shelf>(
    alloc: Global,
    samples: &Samples,
    out: &Sample,
    map_file: &MapFile,
    shelf: &mut S,
    name: &str,
) -> Result<Verdict, ReadError>
    requires sound { AreSoundSamples samples.now }
    ensures answer { JudgesRecordFile samples.now out.now map_file.now name.now
        (S.state shelf.old) (S.state shelf.new) result }
    ensures reads { OnlyReadsFile name.now (S.state shelf.old) (S.state shelf.new) }
{
    let mut file = FileReader::new();
    let (head, kind) = read_record_head(&mut file, shelf, name)?;
    // Each record file ends in `drop`: its end, spelled out at each way out, would be long to prove.
    if kind == CUTS {
        let cuts = Items::from_vec(Vec::new(alloc));
        let none = RecordFile::Cuts { head, cuts };
        let verdict = judge_cells(alloc, samples, out, map_file, &mut file, &none, shelf, name);
        drop(none);
        verdict
    } else if kind == BLOCKS {
        let blocks = Items::from_vec(Vec::new(alloc));
        let none = RecordFile::Blocks { head, blocks };
        let verdict = judge_cells(alloc, samples, out, map_file, &mut file, &none, shelf, name);
        drop(none);
        verdict
    } else {
        let record_file = read_walk_file(alloc, &mut file, head, shelf, name)?;
        let judged = judge_walk_file(alloc, samples, out, map_file, &record_file);
        drop(record_file);
        let verdict = judged?;
        Ok(verdict)
    }
}
