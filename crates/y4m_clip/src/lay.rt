// From the cells of a frame to its planes.
ghost use Rattle.std.specs.Prelude.{◌≡◌, ◌≤◌, ◌<◌, ◌+◌, ◌*◌, length};
ghost use Rattle.cells.specs.Cells.{IsOnePart};
ghost use Rattle.y4m_clip.specs.Spaces.{joined_to, samples_of};
ghost use Rattle.y4m_clip.specs.Writing.{plane_of, planes_of};
ghost use Rattle.y4m_clip.specs.Laying.{Lays, run_samples};

use crate::form::SpaceKind;
use cells::{At, Volume};

// Lays a piece into a buffer, from a place on. It gives the place after it. Most pieces are the one or two
// samples of a cell, which are laid without a call that copies.
fn lay(piece: &[u8], at: usize, planes: &mut [u8]) -> usize
    requires { at + length piece.now ≤ length planes.old }
    ensures { Lays piece.now planes.old at planes.new result }
{
    if piece.len() == 1 {
        planes[at] = piece[0];
        return at + 1;
    }
    if piece.len() == 2 {
        planes[at] = piece[0];
        planes[at + 1] = piece[1];
        return at + 2;
    }
    planes[at..at + piece.len()].copy_from_slice(piece);
    at + piece.len()
}

// Lays so many bytes, from the one with this number on, of each of w runs of k bytes: the row as it is,
// where these are all bytes of a run.
fn lay_samples(
    row: &[u8],
    k: usize,
    start: usize,
    count: usize,
    w: usize,
    at: usize,
    planes: &mut [u8],
) -> usize
    requires row { length row.now ≡ k * w }
    requires inside { start + count ≤ k }
    requires room { at + count * w ≤ length planes.old }
    ensures { Lays (run_samples row.now k start count w) planes.old at planes.new result }
{
    if count == k {
        return lay(row, at, planes);
    }
    let mut next = at;
    for x in 0..w {
        let from = k * x + start;
        next = lay(&row[from..from + count], next, planes);
    }
    next
}

// Lays so many rows of samples of w runs of k bytes: the first has `count` bytes of each, from the one
// with this number on, and the next row the bytes after them.
fn lay_rows(
    row: &[u8],
    k: usize,
    start: usize,
    count: usize,
    rows: usize,
    w: usize,
    at: usize,
    planes: &mut [u8],
) -> usize
    requires row { length row.now ≡ k * w }
    requires inside { start + count * rows ≤ k }
    requires room { at + count * w * rows ≤ length planes.old }
    requires small { (k ≤ 6) × (rows ≤ 2) }
    ensures { Lays (joined_to rows (λ j. run_samples row.now k (start + count * j) count w))
        planes.old at planes.new result }
{
    let mut next = at;
    for j in 0..rows {
        next = lay_samples(row, k, start + count * j, count, w, next, planes);
    }
    next
}

// Lays a plane of a frame: for each row of cells so many rows of samples, the first of which has `count`
// samples of each cell, from the one with this number on.
fn lay_plane(
    volume: &Volume,
    f: u32,
    start: u32,
    count: u32,
    rows: u32,
    at: usize,
    planes: &mut [u8],
) -> usize
    requires one { IsOnePart volume.now }
    requires frame { f < volume.now.size.f }
    requires inside { start + count * rows ≤ volume.now.k }
    requires few { rows ≤ 2 }
    requires room { at + count * volume.now.size.w * rows * volume.now.size.h ≤ length planes.old }
    ensures lays { Lays (plane_of volume.now f start count rows) planes.old at planes.new result }
    ensures place { result
        ≡ at + count * volume.now.size.w * rows * volume.now.size.h }
{
    let size = volume.size();
    let k = volume.samples() as usize;
    let mut next = at;
    for y in 0..size.h {
        let place = At {
            x: 0,
            y: y as i32,
            f: f as i32,
        };
        let row = volume.row(place, size.w);
        next = lay_rows(
            row,
            k,
            start as usize,
            count as usize,
            rows as usize,
            size.w as usize,
            next,
            planes,
        );
    }
    next
}

/// Lays the planes of a frame of a volume of one part into a buffer that they fill.
pub fn lay_planes(space: SpaceKind, volume: &Volume, f: u32, planes: &mut [u8])
    requires one { IsOnePart volume.now }
    requires samples { volume.now.k ≡ samples_of space }
    requires frame { f < volume.now.size.f }
    requires room { length planes.old
        ≡ samples_of space * (volume.now.size.w * volume.now.size.h) }
    ensures { planes.new ≡ planes_of space volume.now f }
{
    let width = space.cell_width();
    let height = space.cell_height();
    let luma = lay_plane(volume, f, 0, width, height, 0, planes);
    match space {
        SpaceKind::Mono => {}
        _ => {
            let blue = lay_plane(volume, f, width * height, 1, 1, luma, planes);
            lay_plane(volume, f, width * height + 1, 1, 1, blue, planes);
        }
    }
}
