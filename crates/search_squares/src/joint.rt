// Two boxes whose errors are added up, each taken so many times: which of a run of places are above a limit.
ghost use Rattle.std.specs.Prelude.{◌≡◌, ◌≤◌, ◌<◌, ℕ};
ghost use Rattle.search_squares.specs.Blocks.{AreBoxBlocks};
ghost use Rattle.search_squares.specs.Bounds.{IsBoxIn, MayBeLaid, place_along};
ghost use Rattle.search_squares.specs.Eliminations.{AreEliminatedBy};
ghost use Rattle.search_squares.specs.Sums.{AreBlockSums};
ghost use Rattle.search_squares.specs.Terms.{AreAboveBoth, IsTerm, both_sums};

use crate::blocks::BoxBlocks;
use crate::bound::{Scale, scale_of};
use crate::eliminated::Eliminated;
use crate::lanes::{left_in, marks_of_both, marks_of_terms};
use crate::levels::{BoxLevels, FEW_PLACES, LEVELS, SampleSums};
use crate::pauses::Pauses;
use crate::places::{holds_run, places_to_end};
use crate::sums::{BlockSums, LANES};
use cells::{At, Box3, Volume};
use map_canvas::Canvas;

/// The most times that an error is taken.
pub const MOST_TIMES: u32 = 100;

/// The overlap error of the places of one box, taken so many times: one of two that are added up.
#[derive(Clone, Copy, Drop)]
pub struct Term<'a> {
    /// From 1 to `MOST_TIMES`.
    pub times: u32,
    /// The canvas, and the sample that it stands over.
    pub canvas: &'a Canvas,
    pub sample: &'a Volume,
    /// The box, and its blocks.
    pub rect: Box3,
    pub levels: &'a BoxLevels,
}

// Of n places along X from one on, marks those from which the errors of the two boxes come to more than the limit, as
// far as blocks of one size show it: place j by the bit of 2^j.
fn above_both(
    blocks: &BoxBlocks,
    one: &Term<'_>,
    others: &BoxBlocks,
    other: &Term<'_>,
    sums: &BlockSums,
    at: At,
    n: u32,
    limit: u64,
) -> u32
    requires times { 1 ≤ one.now.times }
    requires samples { one.now.sample.now.k ≡ other.now.sample.now.k }
    requires blocks { AreBoxBlocks one.now.canvas.now one.now.rect blocks.now }
    requires others { AreBoxBlocks other.now.canvas.now other.now.rect others.now }
    requires sums { AreBlockSums one.now.sample.now sums.now }
    requires other_sums { AreBlockSums other.now.sample.now sums.now }
    requires side { blocks.now.side ≡ sums.now.side }
    requires other_side { others.now.side ≡ sums.now.side }
    requires few { n ≤ LANES }
    requires laid { MayBeLaid one.now.canvas.now one.now.sample.now one.now.rect at n }
    requires other_laid { MayBeLaid other.now.canvas.now other.now.sample.now other.now.rect at n }
    requires inside { (j : ℕ) → j < n
        → IsBoxIn sums.now.rect (place_along at j) one.now.rect.size }
    requires other_inside { (j : ℕ) → j < n
        → IsBoxIn sums.now.rect (place_along at j) other.now.rect.size }
    ensures { AreAboveBoth one.now other.now at n limit result }
{
    if n == 0 {
        return 0;
    }
    // Differences are scaled as for a hundredth of the limit, and their totals compared with the whole of it.
    let k = one.sample.samples();
    let Some(scale) = scale_of(sums.side, k, limit / u64::from(MOST_TIMES)) else {
        return 0;
    };
    let cells = sums.side * sums.side;
    let bytes = cells * k;
    let bound = u64::from(bytes).saturating_mul(limit);
    let square = u64::from(scale.factor) * u64::from(scale.factor);
    let most = bound.saturating_mul(square) >> 16;
    if most > u64::from(u32::MAX) {
        return 0;
    }
    let most = most as u32;
    // Where one term alone is above the limit in each place, the rest of its blocks needn't be seen.
    let alone = (most / one.times).min(u32::from(u16::MAX)) as u16;
    let first = Scale {
        factor: scale.factor,
        most: alone,
    };
    let second = Scale {
        factor: scale.factor,
        most: u16::MAX,
    };
    let totals = blocks.totals(sums, one.canvas, one.sample, &one.rect, at, n, first);
    let more = others.totals(sums, other.canvas, other.sample, &other.rect, at, n, second);
    marks_of_terms(totals, one.times, more, other.times, most)
}

// Those that the blocks of one level mark, by the sums of one part.
fn level_marks(
    level: usize,
    one: &Term<'_>,
    other: &Term<'_>,
    sums: &SampleSums,
    part: u32,
    from: At,
    n: u32,
    limit: u64,
) -> u32
    requires below { level < LEVELS }
    requires one { IsTerm sums.now one.now }
    requires other { IsTerm sums.now other.now }
    requires few { n ≤ LANES }
    ensures { AreAboveBoth one.now other.now from n limit result }
{
    let Some(blocks) = one.levels.levels.get(level) else {
        return 0;
    };
    let Some(others) = other.levels.levels.get(level) else {
        return 0;
    };
    let Some(sums) = sums.levels.get(LEVELS * part as usize + level) else {
        return 0;
    };
    if blocks.side != sums.side || others.side != sums.side {
        return 0;
    }
    if !holds_run(&sums.rect, one.rect.size, from, n) {
        return 0;
    }
    if !holds_run(&sums.rect, other.rect.size, from, n) {
        return 0;
    }
    let k = one.sample.samples();
    let other_k = other.sample.samples();
    if k != other_k {
        return 0;
    }
    above_both(blocks, one, others, other, sums, from, n, limit)
}

// Those that the blocks of one of the levels mark, as `BoxLevels::marks` tries the levels.
fn all_marks(
    one: &Term<'_>,
    other: &Term<'_>,
    sums: &SampleSums,
    part: u32,
    from: At,
    n: u32,
    limit: u64,
    pauses: &mut Pauses,
) -> u32
    requires one { IsTerm sums.now one.now }
    requires other { IsTerm sums.now other.now }
    requires few { n ≤ LANES }
    ensures { AreAboveBoth one.now other.now from n limit result }
{
    if n <= FEW_PLACES[0] {
        return 0;
    }
    let mut marks = level_marks(0, one, other, sums, part, from, n, limit);
    'levels: for level in 1..LEVELS {
        let left = left_in(marks, n);
        if left <= FEW_PLACES[level] {
            return marks;
        }
        if pauses.leaves_out(level) {
            continue 'levels;
        }
        let more = level_marks(level, one, other, sums, part, from, n, limit);
        marks = marks_of_both(marks, more);
        pauses.count(level, left, left_in(marks, n));
    }
    marks
}

/// Of a run of places along X, from one on, those from which the errors of two boxes, each taken its times, come to
/// more than a limit. The run has no more places than the first box may be laid from in the part with this number,
/// counted from 0. The pauses are those of the runs before.
pub fn eliminate_both(
    one: &Term<'_>,
    other: &Term<'_>,
    sums: &SampleSums,
    part: u32,
    from: At,
    limit: u64,
    pauses: &mut Pauses,
) -> Eliminated
    requires one { IsTerm sums.now one.now }
    requires other { IsTerm sums.now other.now }
    ensures { AreEliminatedBy (both_sums one.now other.now) result }
{
    let Some(coarse) = sums.levels.get(LEVELS * part as usize) else {
        return Eliminated::none();
    };
    let n = places_to_end(&coarse.rect, one.rect.size.w, from);
    if n == 0 {
        return Eliminated::none();
    }
    let above = all_marks(one, other, sums, part, from, n, limit, pauses);
    Eliminated {
        from,
        n,
        limit,
        above,
    }
}
