// The costs of steps from frame to frame.
ghost use Rattle.std.specs.Prelude.{◌≡◌, ◌≤◌, ◌<◌, ◌+◌, ◌-◌, ◌^◌, IfOk, IfSome};
ghost use Rattle.frame_distance.specs.Steps.{AreSteps, AreStepsOf, has_terms, filtered_distance, step_cost, step_at, steps_of};

use crate::table::Table;
use cells::Taps;
use limits::MOST_LOOP_FRAMES;
use std::alloc::{AllocError, Global};
use std::marker::Model;

/// What a step from each frame to each costs, where there is one: from 1 to 256 frames, each cost
/// below 2^46.
#[derive(Drop)]
pub struct StepCosts {
    frames: u32,
    costs: Vec<Option<u64>>,
}

impl Model for StepCosts {
    ghost use Rattle.frame_distance.specs.Steps.{Steps, AreSteps};

    ghost Value = { Steps };

    ghost view = { λ a. record { frames = a.frames; costs = a.costs.items } };

    ghost invariant = { λ a. AreSteps (record { frames = a.frames; costs = a.costs.items }) };
}

impl StepCosts {
    /// The number of frames.
    pub fn frames(&self) -> u32
        ensures frames { result ≡ self.now.frames }
        ensures steps { AreSteps self.now }
    {
        let costs = self.costs.as_slice();
        let frames = self.frames;
        let _costs = costs;
        frames
    }

    /// The cost of the step from frame i to frame j; None where there is no step.
    pub fn step(&self, i: u32, j: u32) -> Option<u64>
        requires from { i < self.now.frames }
        requires to { j < self.now.frames }
        ensures cost { result ≡ step_at self.now i j }
        ensures below { IfSome result (λ cost. cost < 2 ^ 46) }
    {
        self.costs[i as usize * self.frames as usize + j as usize]
    }
}

// All frames that the filter reads at frame i are there.
fn has_terms(n: u32, taps: Taps, i: u32) -> bool
    requires { i ≤ MOST_LOOP_FRAMES }
    ensures { result ≡ has_terms n taps i }
{
    match taps {
        Taps::None0 => i < n,
        Taps::Two => 1 <= i && i < n,
        Taps::Four => 2 <= i && i + 1 < n,
    }
}

// The filtered distance of two frames: a sum over the distances of frames that are as far apart, with binomial
// weights. None where one of its terms isn't there.
fn filtered_distance(table: &Table, taps: Taps, i: u32, j: u32) -> Option<u64>
    requires row { i ≤ MOST_LOOP_FRAMES }
    requires column { j ≤ MOST_LOOP_FRAMES }
    ensures distance { result ≡ filtered_distance table.now taps i j }
    ensures below { IfSome result (λ number. number < 2 ^ 46) }
{
    let n = table.frames();
    if !has_terms(n, taps, i) || !has_terms(n, taps, j) {
        return None;
    }
    match taps {
        Taps::None0 => Some(table.at(i, j)),
        Taps::Two => Some(table.at(i - 1, j - 1) + table.at(i, j)),
        Taps::Four => Some(
            table.at(i - 2, j - 2)
                + 3 * table.at(i - 1, j - 1)
                + 3 * table.at(i, j)
                + table.at(i + 1, j + 1),
        ),
    }
}

// The cost of the step from frame i to frame j.
fn step_cost(table: &Table, taps: Taps, gap: u32, i: u32, j: u32) -> Option<u64>
    requires from { i < table.now.frames }
    requires to { j < table.now.frames }
    ensures cost { result ≡ step_cost table.now taps gap i j }
    ensures below { IfSome result (λ number. number < 2 ^ 46) }
{
    let _frames = table.frames();
    let next = i + 1;
    if j == next {
        Some(0)
    } else if next.abs_diff(j) >= gap {
        filtered_distance(table, taps, next, j)
    } else {
        None
    }
}

/// The step costs that the filter `taps` and the least distance `gap` of a jump make of distances of
/// frames: 0 to the frame that follows, and the filtered distance of the frame that follows and the
/// one that is jumped to where the two are at least `gap` apart.
pub fn filtered(alloc: Global, table: &Table, taps: Taps, gap: u32) -> Result<StepCosts, AllocError>
    ensures steps { IfOk result (λ costs. costs ≡ steps_of table.now taps gap) }
    ensures each { IfOk result (AreStepsOf table.now taps gap) }
{
    let n = table.frames();
    let mut costs = Vec::with_capacity(alloc, n as usize * n as usize)?;
    for k in 0..n * n {
        let cost = step_cost(table, taps, gap, k / n, k % n);
        costs.push(cost)?;
    }
    Ok(StepCosts { frames: n, costs })
}
