// Cut records, judged as they are read.
ghost use Rattle.std.specs.Prelude.{◌≡◌, ◌<◌, ◌^◌};
ghost use Rattle.shelf_traits.specs.Files.{OnlyReadsFile};
ghost use Rattle.file_bytes.specs.Reading.{Follows};
ghost use Rattle.map_canvas.specs.Canvases.{IsCanvas, StandsOver};
ghost use Rattle.map_canvas.specs.Maps.{empty_map};
ghost use Rattle.cut_replay.specs.Replay.{IsFormed};
ghost use Rattle.cert_file.specs.RecordFiles.{cuts_file_read};
ghost use Rattle.standing_files.specs.AsRead.{FindsInCut, FindsInCutFile, JudgesToEnd};

use crate::verdict::Verdict;
use cells::Volume;
use cert_file::{cells_of, read_count, read_cut};
use cut_check::{CutRecord, check_cut};
use file_bytes::FileReader;
use map_canvas::Canvas;
use shelf_traits::{ReadError, Shelf};
use source_map::Head;
use std::alloc::Global;

// Judges a record after so many others and puts its choice in, where no rule was broken before.
fn judge_cut(
    canvas: &mut Canvas,
    samples: &Volume,
    number: u32,
    before: Verdict,
    cut: &CutRecord,
) -> Verdict
    requires over { StandsOver canvas.old samples.now }
    requires canvas { IsCanvas canvas.old }
    requires formed { IsFormed cut.now }
    ensures found { FindsInCut samples.now canvas.old.map number before canvas.new.map
        cut.now result }
    ensures over { StandsOver canvas.new samples.now }
    ensures canvas { IsCanvas canvas.new }
{
    match before {
        Verdict::Stands => {}
        fails => return fails,
    }
    match check_cut(canvas, samples, cut) {
        Ok(()) => {
            canvas.put_choice(samples, &cut.placement, cut.choice.as_slice());
            Verdict::Stands
        }
        Err(fault) => Verdict::Fails {
            number: u64::from(number) + 1,
            rule: fault.kind,
            place: fault.place,
        },
    }
}

/// Reads the records after a head, to the end of the file, and judges each over the canvas that those before it
/// leave, where no rule was broken before.
pub(crate) fn judge_cuts_to_end<S: Shelf>(
    alloc: Global,
    canvas: &mut Canvas,
    samples: &Volume,
    before: Verdict,
    file: &mut FileReader,
    head: &Head,
    shelf: &mut S,
    name: &str,
) -> Result<Verdict, ReadError>
    requires follows { Follows name.now (S.state shelf.old) file.old }
    requires room { file.old.at < 2 ^ 31 }
    requires over { StandsOver canvas.old samples.now }
    requires canvas { IsCanvas canvas.old }
    requires empty { canvas.old.map ≡ empty_map canvas.old.map.size }
    ensures answer { JudgesToEnd
        (FindsInCutFile samples.now canvas.old.map.size before canvas.new.map head.now)
        name.now file.old.at (S.state shelf.old) (S.state shelf.new)
        (cuts_file_read head.now) result }
    ensures reads { OnlyReadsFile name.now (S.state shelf.old) (S.state shelf.new) }
{
    let count = read_count(file, shelf, name)?;
    let mut verdict = before;
    let mut cells = 0;
    for i in 0..count {
        let cut = read_cut(alloc, file, head.version, &head.samples, cells, shelf, name)?;
        cells += cells_of(cut.placement.rect.size) as u64;
        verdict = judge_cut(canvas, samples, i, verdict, &cut);
    }
    file.end(shelf, name)?;
    Ok(verdict)
}
