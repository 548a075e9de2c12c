// The cases, by their names.
ghost use Rattle.cells.specs.Places.{IsSmall};
ghost use Rattle.patch_picks.specs.Fitting.{HasPatch};
ghost use Rattle.bench.specs.Sizes.{IsGrowthCase};

use crate::boundaries::least_boundaries;
use crate::clips::move_frames;
use crate::growths::{GrowthCase, check_records, grow_often};
use crate::loops::least_loops;
use crate::merges::merge_often;
use crate::networks::{solve_combs, solve_drawn, solve_grids, solve_ladders, solve_thin_grids};
use crate::quilts::{quilt_often, transfer_often};
use crate::record_files::{Way, move_cuts, move_strip};
use crate::samples::Texture;
use patch_picks::Mode;
use std::alloc::{AllocError, Global};

/// What is run.
#[derive(Drop)]
pub enum Case {
    /// A little of everything.
    Quick,
    /// Growths of 512x512 cells, from 128x128 and 256x256, of mode `Sub`.
    Sub,
    SubWide,
    /// The first of them with 100 rounds.
    Rounds,
    /// The first of them from pictures that sums of blocks tell little of, or nothing.
    Noise,
    EqualMeans,
    Plain,
    /// Mode `Sub` with boxes of 64x64 cells and overlaps of 24, from 512x512 to 512x512.
    SubBroad,
    /// Quilts of 512x512 cells, from 512x512, with blocks of 64x64 cells and overlaps of 16.
    Quilt,
    QuiltNoise,
    /// A transfer of 512x512 cells, from 256x256.
    Transfer,
    /// A merge of two pictures of 512x512 cells.
    Merge,
    /// Mode `Sub` over a sample of 2048x2048, to 128x64.
    SubGreat,
    /// Mode `Whole`, from 128x128 to 512x512.
    Whole,
    /// Mode `Random`, from 256x256 to 1024x1024.
    Random,
    /// Mode `Grid`, from 128x128 to 1024x1024.
    Grid,
    /// The checks of all records of `Sub` and of `Random`.
    Check,
    CheckRandom,
    /// The least loop of so many of 256 frames, with the tables of their distances.
    Loop100,
    Loop4095,
    /// Least boundaries of strips of 64x5, 64x10 and 4096x100.
    Boundary5,
    Boundary10,
    Boundary100,
    /// A grid of pipes, a network each of whose paths is longer than the one before, a grid of four rails,
    /// pipes between drawn ends, and a comb.
    NetworkGrid,
    NetworkLadder,
    NetworkThin,
    NetworkDrawn,
    NetworkComb,
    /// The record file of 200 placements of 32x32 cells, and of a block whose left strip has 1,023 columns.
    Records(Way),
    Strip(Way),
    /// Clips of 64 frames of 640x360 pixels, of the kinds 420 and 444.
    Clip420(Way),
    Clip444(Way),
}

// The cases, by their names.
const CASES: &[(&str, Case)] = &[
    ("sub", Case::Sub),
    ("sub-256", Case::SubWide),
    ("rounds", Case::Rounds),
    ("noise", Case::Noise),
    ("equal-means", Case::EqualMeans),
    ("plain", Case::Plain),
    ("sub-64", Case::SubBroad),
    ("quilt", Case::Quilt),
    ("quilt-noise", Case::QuiltNoise),
    ("transfer", Case::Transfer),
    ("merge", Case::Merge),
    ("sub-2048", Case::SubGreat),
    ("whole", Case::Whole),
    ("random", Case::Random),
    ("grid", Case::Grid),
    ("check", Case::Check),
    ("check-random", Case::CheckRandom),
    ("loop-100", Case::Loop100),
    ("loop-4095", Case::Loop4095),
    ("boundary-5", Case::Boundary5),
    ("boundary-10", Case::Boundary10),
    ("boundary-100", Case::Boundary100),
    ("network-grid", Case::NetworkGrid),
    ("network-ladder", Case::NetworkLadder),
    ("network-thin", Case::NetworkThin),
    ("network-drawn", Case::NetworkDrawn),
    ("network-comb", Case::NetworkComb),
    ("records-read", Case::Records(Way::Read)),
    ("records-write", Case::Records(Way::Write)),
    ("records-copy", Case::Records(Way::Copy)),
    ("strip-read", Case::Strip(Way::Read)),
    ("strip-write", Case::Strip(Way::Write)),
    ("strip-copy", Case::Strip(Way::Copy)),
    ("clip-420-read", Case::Clip420(Way::Read)),
    ("clip-420-write", Case::Clip420(Way::Write)),
    ("clip-444-read", Case::Clip444(Way::Read)),
    ("clip-444-write", Case::Clip444(Way::Write)),
];

/// The case of a name; of any other word it's that of no word.
pub fn case_of(name: &str) -> &'static Case {
    for (known, case) in CASES.iter() {
        if *known == name {
            return case;
        }
    }
    &Case::Quick
}

const SUB: Mode = Mode::Sub {
    side: 32,
    overlap: 8,
    tol: 10,
};

const SUB_BROAD: Mode = Mode::Sub {
    side: 64,
    overlap: 24,
    tol: 10,
};

// The growth of a mode, with no rounds.
fn growth(sample: u32, output: u32, mode: Mode) -> GrowthCase
    requires sample { IsSmall (record { w = sample; h = sample; f = 1 }) }
    requires output { IsSmall (record { w = output; h = output; f = 1 }) }
    requires patch { HasPatch mode }
    ensures { IsGrowthCase result }
{
    GrowthCase {
        texture: Texture::Lumps,
        sample,
        w: output,
        h: output,
        mode,
        rounds: 0,
    }
}

// The growth of mode `Sub` of a texture.
fn growth_from(texture: Texture) -> GrowthCase
    ensures { IsGrowthCase result }
{
    GrowthCase {
        texture,
        sample: 128,
        w: 512,
        h: 512,
        mode: SUB,
        rounds: 0,
    }
}

// The growth of a case.
fn growth_of(case: &Case) -> GrowthCase
    ensures { IsGrowthCase result }
{
    match case {
        Case::SubWide => growth(256, 512, SUB),
        Case::SubBroad => growth(512, 512, SUB_BROAD),
        Case::Noise => growth_from(Texture::Noise),
        Case::EqualMeans => growth_from(Texture::EqualMeans),
        Case::Plain => growth_from(Texture::Plain),
        Case::Rounds => GrowthCase {
            texture: Texture::Lumps,
            sample: 128,
            w: 512,
            h: 512,
            mode: SUB,
            rounds: 100,
        },
        Case::SubGreat => GrowthCase {
            texture: Texture::Lumps,
            sample: 2048,
            w: 128,
            h: 64,
            mode: SUB,
            rounds: 0,
        },
        Case::Whole => growth(128, 512, Mode::Whole { tol: 10 }),
        Case::Random | Case::CheckRandom => growth(256, 1024, Mode::Random),
        Case::Grid => growth(128, 1024, Mode::Grid { overlap: 8 }),
        _ => growth(128, 512, SUB),
    }
}

// The stream lines of clips of 640x360 pixels.
const LINE_420: &[u8] = b"YUV4MPEG2 W640 H360 C420jpeg\n";

const LINE_444: &[u8] = b"YUV4MPEG2 W640 H360 C444\n";

// A number of both, where neither ran out of memory. (Each way out of a long function costs as much
// to prove as all that stands before it.)
fn both(a: Result<u64, AllocError>, b: Result<u64, AllocError>) -> Result<u64, AllocError> {
    Ok(a? ^ b?)
}

// A little of the files.
fn run_files(alloc: Global) -> Result<u64, AllocError> {
    let number = move_cuts(alloc, 2, &Way::Read, 1);
    let number = both(number, move_strip(alloc, 3, &Way::Write, 1));
    let number = both(number, move_strip(alloc, 3, &Way::Copy, 1));
    let number = both(
        number,
        move_frames(alloc, LINE_420, 2, 345600, &Way::Read, 1),
    );
    both(
        number,
        move_frames(alloc, LINE_420, 2, 345600, &Way::Write, 1),
    )
}

// A little of the networks.
fn run_networks(alloc: Global) -> Result<u64, AllocError> {
    let number = both(solve_grids(alloc, 8, 1), solve_ladders(alloc, 20, 1));
    let number = both(number, solve_thin_grids(alloc, 50, 1));
    let number = both(number, solve_drawn(alloc, 60, 300, 1));
    both(number, solve_combs(alloc, 5, 1))
}

// A little of everything.
fn run_quick(alloc: Global) -> Result<u64, AllocError> {
    let small = GrowthCase {
        texture: Texture::EqualMeans,
        sample: 40,
        w: 72,
        h: 48,
        mode: SUB,
        rounds: 3,
    };
    let number = both(
        grow_often(alloc, &small, 1),
        check_records(alloc, &small, 1),
    );
    let number = both(number, least_loops(alloc, 12, 9, 1));
    let number = both(number, least_boundaries(alloc, 16, 5, 1));
    let number = both(number, quilt_often(alloc, Texture::Noise, 80, 1));
    let number = both(number, transfer_often(alloc, 40, 48, 1));
    let number = both(number, merge_often(alloc, 24, 1));
    let number = both(number, run_networks(alloc));
    both(number, run_files(alloc))
}

/// Runs a case so often, and gives a number of what comes out.
pub fn run_case(alloc: Global, case: &Case, times: u32) -> Result<u64, AllocError> {
    match case {
        Case::Quick => run_quick(alloc),
        Case::Check | Case::CheckRandom => check_records(alloc, &growth_of(case), times),
        Case::Loop100 => least_loops(alloc, 256, 100, times),
        Case::Loop4095 => least_loops(alloc, 256, 4095, times),
        Case::Boundary5 => least_boundaries(alloc, 64, 5, times),
        Case::Boundary10 => least_boundaries(alloc, 64, 10, times),
        Case::Boundary100 => least_boundaries(alloc, 4096, 100, times),
        Case::NetworkGrid => solve_grids(alloc, 128, times),
        Case::NetworkLadder => solve_ladders(alloc, 2000, times),
        Case::NetworkThin => solve_thin_grids(alloc, 4096, times),
        Case::NetworkDrawn => solve_drawn(alloc, 2000, 16000, times),
        Case::NetworkComb => solve_combs(alloc, 300, times),
        Case::Quilt => quilt_often(alloc, Texture::Lumps, 512, times),
        Case::QuiltNoise => quilt_often(alloc, Texture::Noise, 512, times),
        Case::Transfer => transfer_often(alloc, 256, 512, times),
        Case::Merge => merge_often(alloc, 512, times),
        Case::Records(way) => move_cuts(alloc, 200, way, times),
        Case::Strip(way) => move_strip(alloc, 1023, way, times),
        Case::Clip420(way) => move_frames(alloc, LINE_420, 64, 345600, way, times),
        Case::Clip444(way) => move_frames(alloc, LINE_444, 64, 691200, way, times),
        _ => grow_often(alloc, &growth_of(case), times),
    }
}
