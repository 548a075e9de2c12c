// The check of a block record against the canvas before it.
ghost use Rattle.std.specs.Prelude.{◌≡◌, ◌<◌, ◌/◌, ◌↔◌, ◌*◌, IsTrue, OnOk, length};
ghost use Rattle.cells.specs.Boxes.{HasCells};
ghost use Rattle.cells.specs.Places.{IsSmall, cell_count, plus, spot};
ghost use Rattle.cells.specs.Firsts.{FirstWithout};
ghost use Rattle.map_canvas.specs.Canvases.{StandsOver};
ghost use Rattle.map_canvas.specs.Choices.{Fits};
ghost use Rattle.block_check.specs.Blocks.{HasColumnsOn, IsFormedBlock, cols_on};
ghost use Rattle.block_check.specs.Records.{BlockIsLeast, Checks, ChecksJoin, OverlapsRight};
ghost use Rattle.block_check.specs.Steps.{AreColumnsOn, ChecksStrip, IsSharedAt, IsSharedCell};

use crate::BlockRecord;
use block_strips::{Side, strip_of};
use cells::{At, Box3, Volume};
use limits::GREATEST_AXIS;
use map_canvas::{Canvas, Map, Placement};
use std::alloc::{AllocError, Global};
use strip_boundary::{BlockFault, BoundaryRecord, Strip, check_boundary};
use thiserror::Error;

/// The rule that the placement fits, by its number in a report.
pub const FIT_RULE: u32 = 7;

/// The rule that the filled cells of the block are those of its strips, by its number in a report.
pub const OVERLAP_RULE: u32 = 8;

/// Why a block isn't accepted.
#[derive(Clone, Copy, Debug, Drop, Error)]
pub enum BlockError {
    /// It breaks a rule.
    #[error("the block breaks a rule")]
    Fault(BlockFault),
    /// Memory ran out.
    #[error("no memory")]
    NoMemory,
}

impl From<AllocError> for BlockError {
    ghost use Rattle.std.specs.Prelude.{◌≡◌};
    ghost use Rattle.block_check.specs.declared.check.BlockError.TheVariants as error;

    ghost from_gives = { λ _ e. e ≡ error.NoMemory };

    fn from(_error: AllocError) -> BlockError {
        BlockError::NoMemory
    }
}

// Whether a placement with a cell fits.
fn fits(canvas: &Canvas, sample: &Volume, placement: &Placement) -> bool
    requires { HasCells placement.now.rect.size }
    ensures { IsTrue result ↔ Fits canvas.now.map.size sample.now placement.now }
{
    let sources = Box3 {
        corner: placement.from,
        size: placement.rect.size,
    };
    let inside = canvas.picture().holds(&placement.rect);
    let held = sample.holds(&sources);
    inside && held
}

/// How many strip columns a boundary has on a side of a placement; none where it is missing.
pub(crate) fn cols_on(side: Side, placement: &Placement, boundary: &Option<BoundaryRecord>) -> u32
    requires small { IsSmall placement.now.rect.size }
    requires formed { HasColumnsOn side placement.now boundary.now }
    ensures cols { result ≡ cols_on side placement.now boundary.now }
    ensures columns { AreColumnsOn side placement.now boundary.now result }
{
    let rows = side.rows(placement.rect.size) as usize;
    match boundary {
        Some(boundary) => (boundary.sums.as_slice().len() / rows) as u32,
        None => 0,
    }
}

// The step from a block's first cell to that in a column and a row.
fn step_to(x: u32, y: u32) -> At
    requires { (x < GREATEST_AXIS) × (y < GREATEST_AXIS) }
    ensures { result ≡ spot x y 0 }
{
    At {
        x: x as i32,
        y: y as i32,
        f: 0,
    }
}

// Whether the cell of a block in a column and a row is filled exactly where a strip has it.
fn is_shared(
    canvas: &Canvas,
    sample: &Volume,
    placement: &Placement,
    left: u32,
    top: u32,
    x: u32,
    y: u32,
) -> bool
    requires fits { Fits canvas.now.map.size sample.now placement.now }
    requires column { x < placement.now.rect.size.w }
    requires row { y < placement.now.rect.size.h }
    ensures { IsTrue result ↔ IsSharedCell canvas.now.map placement.now left top x y }
{
    // Called for its contract only: it shows the prover that this is a canvas.
    let _map = canvas.map();
    let filled = canvas.is_filled(placement.rect.corner.plus(step_to(x, y)));
    let in_strip = x < left || y < top;
    filled == in_strip
}

// The first cell of a row of a block, by its column, that is in a strip and isn't filled, or filled in
// no strip.
fn first_unlike_in(
    canvas: &Canvas,
    sample: &Volume,
    placement: &Placement,
    left: u32,
    top: u32,
    y: u32,
) -> Option<u32>
    requires fits { Fits canvas.now.map.size sample.now placement.now }
    requires row { y < placement.now.rect.size.h }
    ensures { FirstWithout placement.now.rect.size.w
        (λ x. IsSharedCell canvas.now.map placement.now left top x y) result }
{
    for x in 0..placement.rect.size.w {
        if !is_shared(canvas, sample, placement, left, top, x, y) {
            return Some(x);
        }
    }
    None
}

// The first cell of a block of one frame, by its index, that is in a strip and isn't filled, or filled
// in no strip.
fn first_unlike(
    canvas: &Canvas,
    sample: &Volume,
    placement: &Placement,
    left: u32,
    top: u32,
) -> Option<usize>
    requires fits { Fits canvas.now.map.size sample.now placement.now }
    requires frame { placement.now.rect.size.f ≡ 1 }
    ensures { FirstWithout (cell_count placement.now.rect.size)
        (IsSharedAt canvas.now.map placement.now left top) result }
{
    let w = placement.rect.size.w as usize;
    for y in 0..placement.rect.size.h {
        if let Some(x) = first_unlike_in(canvas, sample, placement, left, top, y) {
            return Some(x as usize + w * y as usize);
        }
    }
    None
}

// The rules of one boundary, if there is one.
fn check_join(
    alloc: Global,
    canvas: &Canvas,
    sample: &Volume,
    placement: &Placement,
    side: Side,
    boundary: &Option<BoundaryRecord>,
) -> Result<(), BlockError>
    requires over { StandsOver canvas.now sample.now }
    requires samples { sample.now.k ≡ 3 }
    requires fits { Fits canvas.now.map.size sample.now placement.now }
    requires formed { HasColumnsOn side placement.now boundary.now }
    ensures { ChecksJoin side canvas.now.map sample.now placement.now boundary.now result }
{
    // Called for its contract only: it shows the prover that this is a canvas.
    let _map = canvas.map();
    let cols = cols_on(side, placement, boundary);
    let Some(boundary) = boundary else {
        return Ok(());
    };
    let strip = strip_of(alloc, canvas, sample, placement, side, cols)?;
    match check_boundary(&strip, boundary) {
        Ok(()) => Ok(()),
        Err(fault) => Err(BlockError::Fault(fault)),
    }
}

// The rules of boundaries, the left one first.
fn check_joins(
    alloc: Global,
    canvas: &Canvas,
    sample: &Volume,
    block: &BlockRecord,
) -> Result<(), BlockError>
    requires over { StandsOver canvas.now sample.now }
    requires samples { sample.now.k ≡ 3 }
    requires right { OverlapsRight canvas.now.map sample.now block.now }
    requires formed { IsFormedBlock block.now }
    ensures { Checks canvas.now.map sample.now block.now result }
{
    let placement = &block.placement;
    check_join(alloc, canvas, sample, placement, Side::Left, &block.left)?;
    check_join(alloc, canvas, sample, placement, Side::Top, &block.top)
}

/// Whether the record of a block stands over the canvas before it: its placement fits, the filled cells of
/// its box are those of its strips, and each boundary stands for its strip. The box has a cell and lies in
/// frame 0, and each boundary has a sum for each cell of a strip that fits in it; where it lies is tried. Each
/// boundary of a record that stands is least. It gives the first broken rule, the left strip's before the top
/// one's, and the first place where it is broken: for the overlap the index of a cell in the block.
pub fn check_block(
    alloc: Global,
    canvas: &Canvas,
    sample: &Volume,
    block: &BlockRecord,
) -> Result<(), BlockError>
    requires over { StandsOver canvas.now sample.now }
    requires samples { sample.now.k ≡ 3 }
    requires formed { IsFormedBlock block.now }
    ensures checks { Checks canvas.now.map sample.now block.now result }
    ensures least { OnOk result (BlockIsLeast canvas.now.map sample.now block.now) }
{
    let placement = &block.placement;
    if !fits(canvas, sample, placement) {
        return Err(BlockError::Fault(BlockFault {
            kind: FIT_RULE,
            place: 0,
        }));
    }
    // Called for its contract only: it shows the prover that this is a canvas.
    let _map = canvas.map();
    let left = cols_on(Side::Left, placement, &block.left);
    let top = cols_on(Side::Top, placement, &block.top);
    if let Some(i) = first_unlike(canvas, sample, placement, left, top) {
        return Err(BlockError::Fault(BlockFault {
            kind: OVERLAP_RULE,
            place: i as u64,
        }));
    }
    check_joins(alloc, canvas, sample, block)
}
