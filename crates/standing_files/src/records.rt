// Whether a map is the one that records leave, and whether a walk record stands.
ghost use Rattle.std.specs.Prelude.{◌≡◌, ◌≤◌, ◌*◌, ◌↔◌, IfOk, IsTrue, length};
ghost use Rattle.cells.specs.Cells.{IsOnePart};
ghost use Rattle.cells.specs.Places.{cell_count, place_of};
ghost use Rattle.cells.specs.Firsts.{Each, FirstWithout};
ghost use Rattle.limits.specs.declared.bounds.TheConstants.{MOST_LOOP_FRAMES, MOST_SAMPLE_CELLS};
ghost use Rattle.loop_walk.specs.Tables.{IsLength, table_count};
ghost use Rattle.cert_file.specs.RecordFiles.{IsRecordFile, IsWalkFile};
ghost use Rattle.sample_files.specs.Several.{AreSoundSamples};
ghost use Rattle.standing_files.specs.Standing.{HasOneFrame, HasOneSource, walk_costs};
ghost use Rattle.standing_files.specs.Steps.{HaveOneEntry, JudgesRecords, JudgesWalk, Suit};

use crate::verdict::{MAP_RULE, Verdict};
use cells::{At, Taps, Volume};
use cert_file::RecordFile;
use frame_distance::{distances, filtered};
use loop_walk::check_loop;
use map_canvas::{Entry, Map};
use sample_files::Samples;
use source_map::MapFile;
use std::alloc::{AllocError, Global};

// Whether two maps have one source for a cell.
fn has_one_source(left: &Map, map: &Map, p: At) -> bool
    ensures { IsTrue result ↔ HasOneSource left.now map.now p }
{
    match map.at(p) {
        None => false,
        Some(from) => left.at(p) == Some(from),
    }
}

// Whether two lists have one source at an index.
fn has_one_entry(left: &[Entry], entries: &[Entry], i: usize) -> bool
    ensures { IsTrue result → HaveOneEntry left.now entries.now i }
{
    if i >= left.len() || i >= entries.len() {
        return false;
    }
    match entries[i].source() {
        None => false,
        Some(from) => left[i].source() == Some(from),
    }
}

// Whether two lists have one source at each index of the second.
fn have_one_entry_each(left: &[Entry], entries: &[Entry]) -> bool
    ensures { IsTrue result → Each (length entries.now) (HaveOneEntry left.now entries.now) }
{
    for i in 0..entries.len() {
        if !has_one_entry(left, entries, i) {
            return false;
        }
    }
    true
}

/// The index of the first cell of a map that is unfilled in what is left, or has another source there.
pub(crate) fn first_other_source(left: &Map, map: &Map) -> Option<usize>
    ensures { FirstWithout (cell_count map.now.size)
        (λ i. HasOneSource left.now map.now (place_of map.now.size i)) result }
{
    // Maps of one size whose lists are the same need no look at the place of each cell.
    if left.size() == map.size() && have_one_entry_each(left.sources(), map.sources()) {
        return None;
    }
    let size = map.size();
    for i in 0..size.cells() {
        if !has_one_source(left, map, size.place_at(i)) {
            return Some(i);
        }
    }
    None
}

// The first position of a walk at which a frame map has no frame, or another one.
fn first_other_frame(walk: &[u16], frames: &[u16]) -> Option<usize>
    ensures { FirstWithout (length walk.now) (HasOneFrame walk.now frames.now) result }
{
    for i in 0..walk.len() {
        if i >= frames.len() || walk[i] != frames[i] {
            return Some(i);
        }
    }
    None
}

// Judges a walk record over a sample, and the frames that it leaves.
fn judge_walk(
    alloc: Global,
    sample: &Volume,
    taps: Taps,
    gap: u32,
    walk: &[u16],
    tables: &[u64],
    frames: &[u16],
) -> Result<Verdict, AllocError>
    requires part { IsOnePart sample.now }
    requires few { sample.now.size.f ≤ MOST_LOOP_FRAMES }
    requires cells { cell_count sample.now.size ≤ MOST_SAMPLE_CELLS }
    requires walk { IsLength (length walk.now) }
    requires tables { length tables.now ≡
        table_count (length walk.now) * (sample.now.size.f * sample.now.size.f) }
    ensures { IfOk result
        (JudgesWalk (walk_costs sample.now taps gap) walk.now tables.now frames.now) }
{
    let table = distances(alloc, sample)?;
    let costs = filtered(alloc, &table, taps, gap)?;
    match check_loop(&costs, walk, tables) {
        Ok(()) => match first_other_frame(walk, frames) {
            None => Ok(Verdict::Stands),
            Some(i) => Ok(Verdict::Fails {
                number: 0,
                rule: MAP_RULE,
                place: i as u64,
            }),
        },
        Err(fault) => Ok(Verdict::Fails {
            number: 1,
            rule: fault.kind,
            place: fault.place,
        }),
    }
}

/// Judges the walk of a record file over the step costs of the sample, and the frames that it leaves beside those of
/// the map file. The one error is out of memory; it takes the tables of the distances and of the steps.
pub(crate) fn judge_walk_record(
    alloc: Global,
    samples: &Samples,
    map_file: &MapFile,
    record_file: &RecordFile,
) -> Result<Verdict, AllocError>
    requires record_file { IsRecordFile record_file.now }
    requires walk { IsWalkFile record_file.now }
    requires sound { AreSoundSamples samples.now }
    requires suit { Suit samples.now map_file.now record_file.now }
    ensures { IfOk result (JudgesRecords samples.now.volume map_file.now record_file.now) }
{
    match (map_file, record_file) {
        (
            MapFile::Frames { frames, .. },
            RecordFile::Walk {
                taps,
                gap,
                walk,
                tables,
                ..
            },
        ) => judge_walk(
            alloc,
            &samples.volume,
            *taps,
            *gap,
            walk.as_slice(),
            tables.as_slice(),
            frames.as_slice(),
        ),
        _ => unreachable!(),
    }
}
