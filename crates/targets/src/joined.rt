// A sample with a target as its second part.
ghost use Rattle.std.specs.Prelude.{◌≡◌, ◌≤◌, ◌+◌, true, IfOk};
ghost use Rattle.cells.specs.Boxes.{HasCells, HoldsBox};
ghost use Rattle.cells.specs.Cells.{IsOnePart, count_of, with_part};
ghost use Rattle.limits.specs.declared.bounds.TheConstants.{MOST_CELLS};
ghost use Rattle.targets.specs.Joined.{CanBeJoined, IsTargetBox, at_first};

use cells::{At, Box3, Volume};
use map_canvas::{Canvas, Placement};
use std::alloc::{AllocError, Global};

// The same volume once more, with room for so many bytes after its own.
fn copy_of(alloc: Global, volume: &Volume, more: usize) -> Result<Volume, AllocError>
    requires { IsOnePart volume.now }
    ensures { IfOk result (λ copy. copy ≡ volume.now) }
{
    let size = volume.size();
    let k = volume.samples();
    let all = volume.bytes();
    let mut bytes = Vec::with_capacity(alloc, all.len().saturating_add(more))?;
    bytes.extend_from_slice(all)?;
    Ok(Volume::from_bytes(size, k, bytes))
}

/// The sample with the target as its second part.
pub fn join_target(alloc: Global, sample: &Volume, target: &Volume) -> Result<Volume, AllocError>
    requires can { CanBeJoined sample.now target.now }
    requires room { count_of sample.now + count_of target.now ≤ MOST_CELLS }
    ensures { IfOk result (λ both. both ≡ with_part sample.now target.now) }
{
    let mut both = copy_of(alloc, sample, target.bytes().len())?;
    both.add_part(target)?;
    Ok(both)
}

/// A box of that size at the first cell.
pub fn at_first(rect: &Box3) -> Box3
    ensures { result ≡ at_first rect.now }
{
    Box3 {
        corner: At { x: 0, y: 0, f: 0 },
        size: rect.size,
    }
}

/// A box of the target as a full canvas of the box's size, whose sources are the cells of the target in the
/// joined volume.
pub fn target_box(
    alloc: Global,
    sample: &Volume,
    target: &Volume,
    joined: &Volume,
    rect: &Box3,
) -> Result<Canvas, AllocError>
    requires can { CanBeJoined sample.now target.now }
    requires joined { joined.now ≡ with_part sample.now target.now }
    requires some { HasCells rect.now.size }
    requires inside { HoldsBox target.now.size rect.now.corner rect.now.size }
    ensures { IfOk result (IsTargetBox sample.now target.now joined.now rect.now) }
{
    // Called for its contract only: it shows the prover that the sample is a volume.
    let _sample = sample.samples();
    let k = joined.samples();
    let from = joined.sizes().stock(2, rect.corner);
    let mut canvas = Canvas::empty(alloc, rect.size, k)?;
    let choice = vec![in alloc; true; rect.size.cells()]?;
    let placement = Placement {
        rect: at_first(rect),
        from,
    };
    canvas.put_choice(joined, &placement, &choice);
    Ok(canvas)
}
