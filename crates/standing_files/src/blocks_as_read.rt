// Block records, judged as they are read.
ghost use Rattle.std.specs.Prelude.{◌≡◌, ◌<◌, ◌^◌, IfOk};
ghost use Rattle.shelf_traits.specs.Files.{OnlyReadsFile};
ghost use Rattle.file_bytes.specs.Reading.{Follows};
ghost use Rattle.map_canvas.specs.Canvases.{IsCanvas, StandsOver};
ghost use Rattle.map_canvas.specs.Maps.{empty_map};
ghost use Rattle.block_check.specs.Blocks.{IsFormedBlock};
ghost use Rattle.cert_file.specs.RecordFiles.{blocks_file_read};
ghost use Rattle.standing_files.specs.AsRead.{FindsInBlock, FindsInBlockFile, JudgesToEnd};
ghost use Rattle.standing_files.specs.declared.verdict.Verdict.TheVariants.{Stands};

use crate::verdict::Verdict;
use block_check::{BlockError, BlockRecord, check_block, put_block};
use cells::Volume;
use cert_file::{cells_of, read_block, read_count};
use file_bytes::FileReader;
use map_canvas::Canvas;
use shelf_traits::{ReadError, Shelf};
use source_map::Head;
use std::alloc::{AllocError, Global};

// Judges a record after so many others and puts its new cells in, where no rule was broken before.
fn judge_block(
    alloc: Global,
    canvas: &mut Canvas,
    samples: &Volume,
    number: u32,
    before: Verdict,
    block: &BlockRecord,
) -> Result<Verdict, AllocError>
    requires over { StandsOver canvas.old samples.now }
    requires canvas { IsCanvas canvas.old }
    requires formed { IsFormedBlock block.now }
    requires colours { before ≡ Stands → samples.now.k ≡ 3 }
    ensures found { IfOk result (FindsInBlock samples.now canvas.old.map number before
        canvas.new.map block.now) }
    ensures over { StandsOver canvas.new samples.now }
    ensures canvas { IsCanvas canvas.new }
{
    match before {
        Verdict::Stands => {}
        fails => return Ok(fails),
    }
    // Called for its contract only: it shows the prover that this is a canvas.
    let _map = canvas.map();
    match check_block(alloc, canvas, samples, block) {
        Ok(()) => {
            put_block(alloc, canvas, samples, block)?;
            Ok(Verdict::Stands)
        }
        Err(BlockError::Fault(fault)) => Ok(Verdict::Fails {
            number: u64::from(number) + 1,
            rule: fault.kind,
            place: fault.place,
        }),
        Err(BlockError::NoMemory) => Err(AllocError),
    }
}

/// Reads the records after a head, to the end of the file, and judges each over the canvas that those before it
/// leave, where no rule was broken before.
pub(crate) fn judge_blocks_to_end<S: Shelf>(
    alloc: Global,
    canvas: &mut Canvas,
    samples: &Volume,
    before: Verdict,
    file: &mut FileReader,
    head: &Head,
    shelf: &mut S,
    name: &str,
) -> Result<Verdict, ReadError>
    requires follows { Follows name.now (S.state shelf.old) file.old }
    requires room { file.old.at < 2 ^ 31 }
    requires over { StandsOver canvas.old samples.now }
    requires canvas { IsCanvas canvas.old }
    requires colours { before ≡ Stands → samples.now.k ≡ 3 }
    requires empty { canvas.old.map ≡ empty_map canvas.old.map.size }
    ensures answer { JudgesToEnd
        (FindsInBlockFile samples.now canvas.old.map.size before canvas.new.map head.now)
        name.now file.old.at (S.state shelf.old) (S.state shelf.new)
        (blocks_file_read head.now) result }
    ensures reads { OnlyReadsFile name.now (S.state shelf.old) (S.state shelf.new) }
{
    let count = read_count(file, shelf, name)?;
    let mut verdict = before;
    let mut cells = 0;
    for i in 0..count {
        let block = read_block(alloc, file, cells, shelf, name)?;
        cells += cells_of(block.placement.rect.size) as u64;
        let judged = judge_block(alloc, canvas, samples, i, verdict, &block);
        drop(block);
        verdict = judged?;
    }
    file.end(shelf, name)?;
    Ok(verdict)
}
