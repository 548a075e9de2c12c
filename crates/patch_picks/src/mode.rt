// The modes of growing, and the size of a patch and of a window.
ghost use Rattle.std.specs.Prelude.{◌≡◌, ◌≤◌, ◌<◌, All, length};
ghost use Rattle.cells.specs.Boxes.{HasCells};
ghost use Rattle.cells.specs.Places.{IsInside, IsSmall};
ghost use Rattle.boxes.specs.Rooms.{HasRoom};
ghost use Rattle.patch_picks.specs.Counts.{IsBelowSize};
ghost use Rattle.patch_picks.specs.Fitting.{FitsAndCovers, HasPatch, HasRoomInEach};
ghost use Rattle.patch_picks.specs.Lists.{IsWithin, listed};
ghost use Rattle.patch_picks.specs.Modes.{candidates, grid_placement, least_part, patch_box, window};
ghost use Rattle.patch_picks.specs.Steps.{tolerance};

use crate::Candidates;
use crate::candidates::{part_after, parts_of, placed};
use boxes::{count_of, grid_on, patch_corner, patch_len};
use cells::{At, Box3, Size, Volume};
use map_canvas::Placement;

/// How an output is grown from its first unfilled cell on.
#[derive(Clone, Copy, Drop)]
pub enum Mode {
    /// Copies of part 1 of the sample in a grid.
    Grid {
        /// By how many cells two copies overlap, at most all but one of them.
        overlap: u32,
    },
    /// A whole part of the sample, laid at random.
    Random,
    /// A whole part of the sample, laid where it fits what is there.
    Whole {
        /// By how much more than the best a placement may differ, in hundredths.
        tol: u32,
    },
    /// A patch of the sample that fits what is there.
    Sub {
        /// The cells of the patch on each axis, at most those of the output and of each part.
        side: u32,
        /// How many cells before the first unfilled one the patch begins, at most all but one of its
        /// own.
        overlap: u32,
        /// By how much more than the best a placement may differ, in hundredths.
        tol: u32,
    },
}

// On each axis the least of the parts of a sample.
fn least_part(sample: &Volume) -> Size
    ensures least { result ≡ least_part sample.now }
    ensures some { HasCells result }
    ensures parts { HasRoomInEach sample.now result }
{
    // Called for its contract only: it shows the prover that the sample is a volume.
    let _sample = sample.samples();
    let sizes = parts_of(sample);
    let mut least = part_after(&sizes, 0);
    'parts: for n in 1..sizes.len() {
        let part = part_after(&sizes, n);
        least = Size {
            w: least.w.min(part.w),
            h: least.h.min(part.h),
            f: least.f.min(part.f),
        };
    }
    least
}

/// The size of the patches that mode `Sub` takes, and of the windows that refinement takes: on each axis
/// the least of the side, the output and all parts of the sample.
pub fn window_size(side: u32, output: Size, sample: &Volume) -> Size
    ensures size { result ≡ window side output sample.now }
    ensures some { 1 ≤ side → HasCells output → HasCells result }
    ensures room { HasRoom output result }
    ensures parts { HasRoomInEach sample.now result }
{
    let least = least_part(sample);
    Size {
        w: patch_len(output.w, least.w, side),
        h: patch_len(output.h, least.h, side),
        f: patch_len(output.f, least.f, side),
    }
}

// The copy, in the grid that has q, of a part of this size.
fn grid_placement(output: Size, part: Size, overlap: u32, q: At) -> Placement
    requires output { IsSmall output }
    requires part { IsSmall part }
    requires q { IsBelowSize output q }
    ensures { result ≡ grid_placement output part overlap q }
{
    let x = grid_on(output.w, part.w, overlap, count_of(q.x));
    let y = grid_on(output.h, part.h, overlap, count_of(q.y));
    let f = grid_on(output.f, part.f, overlap, count_of(q.f));
    placed(x, y, f)
}

// The box that a patch goes to.
fn patch_box(output: Size, sample: &Volume, side: u32, overlap: u32, q: At) -> Box3
    requires output { IsSmall output }
    requires q { IsBelowSize output q }
    ensures { result ≡ patch_box output sample.now side overlap q }
{
    let size = window_size(side, output, sample);
    let corner = At {
        x: patch_corner(output.w, size.w, overlap, count_of(q.x)) as i32,
        y: patch_corner(output.h, size.h, overlap, count_of(q.y)) as i32,
        f: patch_corner(output.f, size.f, overlap, count_of(q.f)) as i32,
    };
    Box3 { corner, size }
}

impl Mode {
    /// The placements that may be taken next, where q is the first unfilled cell. There is at least one,
    /// and where a patch has a cell, each of them fits and covers q.
    pub fn candidates(&self, q: At, output: Size, sample: &Volume) -> Candidates
        requires output { IsSmall output }
        requires inside { IsInside output q }
        ensures listed { listed result output sample.now ≡ candidates self.now output sample.now q }
        ensures within { IsWithin result output }
        ensures some { 0 < length (listed result output sample.now) }
        ensures fit { HasPatch self.now
            → All (FitsAndCovers output sample.now q) (listed result output sample.now) }
    {
        // Called for its contract only: it shows the prover that the sample is a volume.
        let _sample = sample.samples();
        self.list_for(q, output, sample)
    }

    /// By how many hundredths a candidate may be worse than the best; None where all are eligible.
    pub fn tolerance(&self) -> Option<u32>
        ensures { result ≡ tolerance self.now }
    {
        match self {
            Mode::Grid { .. } | Mode::Random => None,
            Mode::Whole { tol } | Mode::Sub { tol, .. } => Some(*tol),
        }
    }

    // The same, apart from what follows for each of them.
    fn list_for(&self, q: At, output: Size, sample: &Volume) -> Candidates
        requires output { IsSmall output }
        requires inside { IsInside output q }
        ensures listed { listed result output sample.now ≡ candidates self.now output sample.now q }
        ensures within { IsWithin result output }
    {
        match self {
            Mode::Grid { overlap } => {
                let part = part_after(&parts_of(sample), 0);
                Candidates::One(grid_placement(output, part, *overlap, q))
            }
            Mode::Random | Mode::Whole { .. } => Candidates::Laid { q },
            Mode::Sub { side, overlap, .. } => Candidates::Fits {
                rect: patch_box(output, sample, *side, *overlap, q),
            },
        }
    }
}
