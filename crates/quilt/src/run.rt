// The whole run.
ghost use Rattle.quilted.specs.Runs.{by_overlap};
ghost use Rattle.quilted.specs.Quilted.{CanBeQuilted, Quilts};

use crate::BlockPicks;
use crate::work::{QuiltWork, step};
use block_strips::empty_map_is_laid;
use cells::Volume;
use items::Items;
use map_canvas::Canvas;
use patch_picks::Draws;
use quilted::{QuiltError, QuiltRun, Quilted, first_past};
use search_squares::SampleSums;
use std::alloc::Global;

/// Quilts an output from blocks of a sample, of one frame and three samples per cell, with a record of each
/// block. `picks` picks the place of each block, by its ratings. The draws are those of the seed, from number 0
/// on. The limit comes before any pick.
pub fn quilt_by<P: BlockPicks>(
    alloc: Global,
    asked: &QuiltRun,
    sample: &Volume,
    picks: &P,
) -> Result<Quilted, QuiltError>
    requires can { CanBeQuilted asked.now sample.now }
    requires ready { P.AreReady picks.now asked.now.size sample.now }
    ensures { Quilts (P.rating picks.now sample.now) asked.now sample.now result }
{
    if let Some(number) = first_past(&asked.plan, asked.size, sample.size()) {
        return Err(QuiltError::Records(number));
    }
    empty_map_is_laid();
    let samples = sample.samples();
    let canvas = Canvas::empty(alloc, asked.size, samples)?;
    let mut work = QuiltWork {
        canvas,
        draws: Draws::from_seed(asked.seed),
        blocks: Vec::new(alloc),
        boundaries: 0,
        cost: 0,
    };
    let mut more = true;
    'laying: while more {
        more = step(alloc, asked, sample, picks, &mut work)?;
    }
    Ok(Quilted {
        canvas: work.canvas,
        blocks: Items::from_vec(work.blocks),
        boundaries: work.boundaries,
        cost: work.cost,
    })
}

/// The same run, by overlap errors. The sums of the sample's blocks are made once for all picks; they take 8
/// bytes for each cell of the sample until the run ends, or 4 where the sample has more than 2^22 bytes. The
/// method is that of Efros and Freeman, "Image quilting" (2001).
pub fn quilt_canvas(alloc: Global, asked: &QuiltRun, sample: &Volume) -> Result<Quilted, QuiltError>
    requires { CanBeQuilted asked.now sample.now }
    ensures { Quilts (by_overlap sample.now) asked.now sample.now result }
{
    // The limit comes before the sums are made.
    if let Some(number) = first_past(&asked.plan, asked.size, sample.size()) {
        return Err(QuiltError::Records(number));
    }
    let sums = SampleSums::make(alloc, sample)?;
    quilt_by(alloc, asked, sample, &sums)
}
