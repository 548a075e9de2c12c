// Whether the out picture is that of the map file.
ghost use Rattle.std.specs.Prelude.{◌≡◌, ◌≤◌, ◌<◌, ◌+◌, ◌*◌, ◌≤ℤ◌, ◌↔◌, ◌∷◌, [], IfNone, IfSome, IsTrue, pos};
ghost use Rattle.cells.specs.Cells.{sizes_of};
ghost use Rattle.limits.specs.declared.bounds.TheConstants.{GREATEST_AXIS};
ghost use Rattle.cells.specs.Places.{plus, spot};
ghost use Rattle.cells.specs.Firsts.{Each, IsFirstWithout};
ghost use Rattle.map_canvas.specs.Maps.{map_at};
ghost use Rattle.map_canvas.specs.declared.map.TheConstants.{GREATEST_COORDINATE};
ghost use Rattle.source_map.specs.MapFiles.{frame_source};
ghost use Rattle.standing_files.specs.AsRead.{JudgesPicture};
ghost use Rattle.standing_files.specs.Standing.{IsCopied, IsCopiedAt, map_output, named_source};
ghost use Rattle.standing_files.specs.Steps.{IsRunCopied, IsRunSame};

use crate::verdict::{PICTURE_RULE, Verdict};
use cells::{At, Box3, Size, Volume};
use map_canvas::Map;
use source_map::MapFile;

// The source of a cell in a frame map: the same column and row of the frame that the map names.
fn frame_source(frames: &[u16], p: At) -> Option<At>
    ensures { result ≡ frame_source frames.now p }
{
    if p.f < 0 {
        return None;
    }
    let frame = *frames.get(p.f as usize)?;
    Some(At {
        x: p.x,
        y: p.y,
        f: i32::from(frame),
    })
}

// Whether a map file names a source for a cell of a picture, and the cell has the bytes of the samples' cell there.
fn is_copied(samples: &Volume, picture: &Volume, map_file: &MapFile, p: At) -> bool
    ensures { IsTrue result ↔ IsCopied samples.now picture.now (named_source map_file.now p) p }
{
    let source = match map_file {
        MapFile::Cells { map, .. } => map.at(p),
        MapFile::Frames { frames, .. } => frame_source(frames.as_slice(), p),
    };
    match source {
        None => false,
        Some(from) => picture.cell(p) == samples.cell(from),
    }
}

// Whether a run of cells of a picture has the bytes of a run of the samples. Both lie inside then.
fn is_run_same(samples: &Volume, picture: &Volume, from: At, p: At, w: u32) -> bool
    requires some { 1 ≤ w }
    ensures { IsTrue result → IsRunSame samples.now picture.now from p w }
{
    let size = Size { w, h: 1, f: 1 };
    if samples.samples() != picture.samples() {
        return false;
    }
    if !samples.holds(&Box3 { corner: from, size }) || !picture.holds(&Box3 { corner: p, size }) {
        return false;
    }
    picture.row(p, w) == samples.row(from, w)
}

// The place so many cells along X from another.
fn along(p: At, n: u32) -> At
    requires few { n ≤ GREATEST_AXIS }
    requires near { p.x ≤ℤ GREATEST_COORDINATE }
    ensures { result ≡ plus p (spot n 0 0) }
{
    p.plus(At {
        x: n as i32,
        y: 0,
        f: 0,
    })
}

// How many cells from one on are known to be copied, as far as so many: those whose sources follow one
// another. 0 where it isn't known.
fn copied_run(samples: &Volume, picture: &Volume, map: &Map, p: At, most: u32) -> u32
    requires few { most ≤ GREATEST_AXIS }
    requires near { p.x ≤ℤ GREATEST_COORDINATE }
    ensures most { result ≤ most }
    ensures copied { IsRunCopied samples.now picture.now (map_at map.now) p result }
{
    let Some(from) = map.at(p) else {
        return 0;
    };
    let mut n = 0;
    'run: while n < most && map.at(along(p, n)) == Some(along(from, n)) {
        n += 1;
    }
    if 0 < n && is_run_same(samples, picture, from, p, n) {
        n
    } else {
        0
    }
}

// Whether each cell of a run is known to be copied, where its cells are taken in runs whose sources follow
// one another.
fn is_in_runs(samples: &Volume, picture: &Volume, map: &Map, p: At, w: u32) -> bool
    requires few { w ≤ GREATEST_AXIS }
    requires near { p.x ≤ℤ pos GREATEST_AXIS }
    ensures { IsTrue result → IsRunCopied samples.now picture.now (map_at map.now) p w }
{
    let mut done = 0;
    'runs: while done < w {
        let n = copied_run(samples, picture, map, along(p, done), w - done);
        if n == 0 {
            return false;
        }
        done += n;
    }
    true
}

// Whether each cell of a run is known to be copied, without a look at each. In a frame map it's one run
// of the samples, in a map of cells so many.
fn is_run_copied(samples: &Volume, picture: &Volume, map_file: &MapFile, p: At, w: u32) -> bool
    requires some { 1 ≤ w }
    requires few { w ≤ GREATEST_AXIS }
    requires near { p.x ≤ℤ pos GREATEST_AXIS }
    ensures { IsTrue result →
        IsRunCopied samples.now picture.now (named_source map_file.now) p w }
{
    match map_file {
        MapFile::Cells { map, .. } => is_in_runs(samples, picture, map, p, w),
        MapFile::Frames { frames, .. } => match frame_source(frames.as_slice(), p) {
            None => false,
            Some(from) => is_run_same(samples, picture, from, p, w),
        },
    }
}

// The first cell of a row of the out picture, with so many rows before it, that isn't copied.
fn first_in_row(samples: &Volume, picture: &Volume, map_file: &MapFile, row: usize) -> Option<usize>
    requires one { sizes_of picture.now ≡ map_output map_file.now ∷ [] }
    requires row { row < (map_output map_file.now).h * (map_output map_file.now).f }
    requires before { Each ((map_output map_file.now).w * row)
        (IsCopiedAt samples.now picture.now map_file.now) }
    ensures none { IfNone result (Each ((map_output map_file.now).w * (row + 1))
        (IsCopiedAt samples.now picture.now map_file.now)) }
    ensures some { IfSome result (IsFirstWithout ((map_output map_file.now).w * (row + 1))
        (IsCopiedAt samples.now picture.now map_file.now)) }
{
    let size = picture.size();
    let w = size.w as usize;
    let start = w * row;
    if is_run_copied(samples, picture, map_file, size.place_at(start), size.w) {
        return None;
    }
    for i in start..start + w {
        let p = size.place_at(i);
        if !is_copied(samples, picture, map_file, p) {
            return Some(i);
        }
    }
    None
}

/// What rule 17 says of the picture: it has the size of the map, and each of its cells is the samples' cell that the
/// map file names for it.
pub(crate) fn judge_picture(samples: &Volume, picture: &Volume, map_file: &MapFile) -> Verdict
    requires one { sizes_of picture.now ≡ map_output map_file.now ∷ [] }
    ensures { JudgesPicture samples.now picture.now map_file.now result }
{
    let size = picture.size();
    for row in 0..size.h as usize * size.f as usize {
        match first_in_row(samples, picture, map_file, row) {
            Some(i) => {
                return Verdict::Fails {
                    number: 0,
                    rule: PICTURE_RULE,
                    place: i as u64,
                };
            }
            None => {}
        }
    }
    Verdict::Stands
}
