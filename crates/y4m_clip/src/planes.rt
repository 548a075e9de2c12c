// From the planes of a frame to its cells.
ghost use Rattle.std.specs.Prelude.{◌≡◌, ◌≤◌, ◌<◌, ◌+◌, ◌*◌, ◌++◌, length, OnOk};
ghost use Rattle.y4m_clip.specs.Spaces.{cell_width, cell_height, samples_of, cell_bytes, joined_to};
ghost use Rattle.y4m_clip.specs.Clips.{span, row_cells, frame_cells};
ghost use Rattle.y4m_clip.specs.Planes.{HasPlaneCell, HasRow};

use crate::form::SpaceKind;
use limits::MOST_CELLS;
use std::alloc::AllocError;

// So many bytes from a place on, as far as there are some.
fn span(bytes: &[u8], start: usize, count: usize) -> &[u8]
    ensures { result.now ≡ span bytes.now start count }
{
    let start = start.min(bytes.len());
    let count = count.min(bytes.len() - start);
    &bytes[start..start + count]
}

// Adds the cell at x of a row.
fn add_cell(
    space: SpaceKind,
    upper: &[u8],
    lower: &[u8],
    blue: &[u8],
    red: &[u8],
    x: usize,
    cells: &mut Vec<u8>,
) -> Result<(), AllocError>
    requires { HasPlaneCell space (length upper.now) (length lower.now) (length blue.now)
        (length red.now) x }
    ensures { OnOk result (cells.new.items ≡ cells.old.items
        ++ cell_bytes space upper.now lower.now blue.now red.now x) }
{
    match space {
        SpaceKind::Mono => cells.extend_from_slice(&[upper[x]]),
        SpaceKind::C444 => cells.extend_from_slice(&[upper[x], blue[x], red[x]]),
        SpaceKind::C422 => {
            cells.extend_from_slice(&[upper[2 * x], upper[2 * x + 1], blue[x], red[x]])
        }
        SpaceKind::C411 => cells.extend_from_slice(&[
            upper[4 * x],
            upper[4 * x + 1],
            upper[4 * x + 2],
            upper[4 * x + 3],
            blue[x],
            red[x],
        ]),
        SpaceKind::C420 => cells.extend_from_slice(&[
            upper[2 * x],
            upper[2 * x + 1],
            lower[2 * x],
            lower[2 * x + 1],
            blue[x],
            red[x],
        ]),
    }
}

// Adds a row of w cells. A row of mono is its plane's.
fn add_cells(
    space: SpaceKind,
    upper: &[u8],
    lower: &[u8],
    blue: &[u8],
    red: &[u8],
    w: usize,
    cells: &mut Vec<u8>,
) -> Result<(), AllocError>
    requires { HasRow space w (length upper.now) (length lower.now) (length blue.now)
        (length red.now) }
    ensures { OnOk result (cells.new.items ≡ cells.old.items
        ++ joined_to w (cell_bytes space upper.now lower.now blue.now red.now)) }
{
    match space {
        SpaceKind::Mono => cells.extend_from_slice(&upper[..w])?,
        _ => {
            for x in 0..w {
                add_cell(space, upper, lower, blue, red, x, cells)?;
            }
        }
    }
    Ok(())
}

// Adds the row of w cells that has so many of n cells before it.
fn add_row(
    space: SpaceKind,
    w: usize,
    n: usize,
    planes: &[u8],
    before: usize,
    cells: &mut Vec<u8>,
) -> Result<(), AllocError>
    requires planes { length planes.now ≡ samples_of space * n }
    requires few { n ≤ MOST_CELLS }
    requires inside { before + w ≤ n }
    ensures { OnOk result (cells.new.items ≡ cells.old.items
        ++ row_cells space w n planes.now before) }
{
    let width = space.cell_width() as usize;
    let height = space.cell_height() as usize;
    let start = width * height * before;
    let chroma = width * height * n;
    let upper = span(planes, start, width * w);
    let lower = span(planes, start + width * w * (height - 1), width * w);
    let blue = span(planes, chroma + before, w);
    let red = span(planes, chroma + n + before, w);
    add_cells(space, upper, lower, blue, red, w, cells)
}

/// Adds the cells of a frame of w x h cells with these planes.
pub fn add_frame(
    space: SpaceKind,
    w: usize,
    h: usize,
    planes: &[u8],
    cells: &mut Vec<u8>,
) -> Result<(), AllocError>
    requires planes { length planes.now ≡ samples_of space * (w * h) }
    requires few { w * h ≤ MOST_CELLS }
    ensures { OnOk result (cells.new.items ≡ cells.old.items
        ++ frame_cells space w h planes.now) }
{
    let n = w * h;
    for y in 0..h {
        add_row(space, w, n, planes, w * y, cells)?;
    }
    Ok(())
}
