// The words of `tile`.
ghost use Rattle.std.specs.Prelude.{◌≡◌, ◌<◌, IfOk};
ghost use Rattle.job_words.specs.Words as by;
ghost use Rattle.job_words.specs.TileWords.{IsTileJob, is_narrow, narrow_axis, tile_job_of, wrap_nth};

use crate::fields::{name_at, nth_at, number_at, size_at, two_names_at};
use crate::job::WordFault;
use crate::keys::Key;
use crate::name::Name;
use crate::read::all_settings;
use crate::settings::Setting;
use crate::table::{
    Choice, Kind, Need, Row, Texts, file_row, number_row, overlap_row, seed_row, side_row, tol_row,
};
use cells::{Axis, Size};
use limits::{GREATEST_AXIS, LEAST_WRAPPED_AXIS};
use std::alloc::Global;

/// The axes on which an output's edges meet.
#[derive(Clone, Copy, Drop, PartialEq, Eq)]
pub struct Wrap {
    pub x: bool,
    pub y: bool,
    pub f: bool,
}

/// How patches are laid on an output whose edges meet.
#[derive(Clone, Copy, Drop)]
pub struct TilePlan {
    pub wrap: Wrap,
    /// How many cells a patch has on an axis, cut to the sample and the output: 1 to 4,096.
    pub side: u32,
    /// How many cells neighbouring patches share on an axis, cut to the patch: 0 to 4,095.
    pub overlap: u32,
    /// By how much more than the best a pick may differ, in hundredths: 0 to 1,000.
    pub tol: u32,
}

/// Growing an output whose edges meet.
#[derive(Drop)]
pub struct TileJob {
    /// The sample.
    pub sample: Name,
    /// The picture or clip that is written.
    pub out: Name,
    /// The map that is written.
    pub map: Name,
    /// The output's size in cells: 1 to 4,096 on each axis, 3 at the least where its edges meet.
    pub size: Size,
    pub plan: TilePlan,
    /// The seed of the draws.
    pub seed: u64,
}

const ROWS: [Row; 11] = [
    file_row!(Sample),
    file_row!(Out),
    file_row!(Map),
    number_row!(Width, 1, GREATEST_AXIS as u64),
    number_row!(Height, 1, GREATEST_AXIS as u64),
    number_row!(Frames, 1, GREATEST_AXIS as u64, 1),
    Row {
        key: Key::Wrap,
        kind: Kind::OneOf(Texts::Wraps),
        need: Need::Default(Choice::Nth(2)),
    },
    side_row!(),
    overlap_row!(8),
    tol_row!(),
    seed_row!(),
];

// The axes at a position of the list of their texts: `x`, `y`, `xy`, `f`, `xyf`.
fn wrap_nth(n: usize) -> Wrap
    requires { n < 5 }
    ensures { result ≡ wrap_nth n }
{
    Wrap {
        x: [true, false, true, false, true][n],
        y: [false, true, true, false, true][n],
        f: [false, false, false, true, true][n],
    }
}

fn is_narrow(wrapped: bool, n: u32) -> bool
    ensures { result ≡ is_narrow wrapped n }
{
    wrapped && n < LEAST_WRAPPED_AXIS
}

// The first axis on which the edges meet and there are too few cells between them.
fn narrow_axis(wrap: Wrap, size: Size) -> Option<Axis>
    ensures { result ≡ narrow_axis wrap size }
{
    if is_narrow(wrap.x, size.w) {
        return Some(Axis::X);
    }
    if is_narrow(wrap.y, size.h) {
        return Some(Axis::Y);
    }
    if is_narrow(wrap.f, size.f) {
        return Some(Axis::F);
    }
    None
}

/// The job of the words after the command, or their first refusal. That an axis is too narrow is refused
/// last, of the words alone.
pub fn read_tile(alloc: Global, words: &[Name]) -> Result<TileJob, WordFault>
    ensures exact { by.AnswersAs (tile_job_of words.now) result }
    ensures lawful { IfOk result IsTileJob }
{
    let settings = all_settings(alloc, &ROWS, words)?;
    let values: &[Setting] = &settings;
    let size = size_at(values);
    let plan = TilePlan {
        wrap: wrap_nth(nth_at(values, Key::Wrap)),
        side: number_at(values, Key::Side) as u32,
        overlap: number_at(values, Key::Overlap) as u32,
        tol: number_at(values, Key::Tol) as u32,
    };
    if let Some(axis) = narrow_axis(plan.wrap, size) {
        return Err(WordFault::Narrow(axis));
    }
    let (out, map) = two_names_at(alloc, values, Key::Out, Key::Map)?;
    Ok(TileJob {
        sample: name_at(alloc, values, Key::Sample)?,
        out,
        map,
        size,
        plan,
        seed: number_at(values, Key::Seed),
    })
}
