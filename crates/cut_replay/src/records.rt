// Records over one another.
ghost use Rattle.std.specs.Prelude.{All, OnErr, OnOk};
ghost use Rattle.map_canvas.specs.Canvases.{IsCanvas, StandsOver};
ghost use Rattle.cut_replay.specs.Replay.{EachLeast, EachOver, EachStands, IsFormed, KeepsFixed, Replays};

use cells::Volume;
use cut_check::{CutFault, CutRecord, check_cut};
use map_canvas::Canvas;

/// The first record that doesn't stand over the map that the records before it leave.
#[derive(Clone, Copy, Drop, PartialEq, Eq)]
pub struct Broken {
    /// Its number in the list, from 0.
    pub number: usize,
    /// Its first fault.
    pub fault: CutFault,
}

// The same as `replay_cuts`, apart from what follows for records that stand.
fn replay_each(canvas: &mut Canvas, sample: &Volume, cuts: &[CutRecord]) -> Result<(), Broken>
    requires over { StandsOver canvas.old sample.now }
    requires canvas { IsCanvas canvas.old }
    requires formed { All IsFormed cuts.now }
    ensures replayed { Replays sample.now canvas.old.map cuts.now canvas.new.map result }
    ensures over { StandsOver canvas.new sample.now }
    ensures canvas { IsCanvas canvas.new }
{
    for number in 0..cuts.len() {
        let cut = &cuts[number];
        match check_cut(canvas, sample, cut) {
            Ok(()) => canvas.put_choice(sample, &cut.placement, cut.choice.as_slice()),
            Err(fault) => return Err(Broken { number, fault }),
        }
    }
    Ok(())
}

/// Judges records, each over the canvas that the records before it leave, and puts their choices in. Each
/// has a box with a cell, an entry for each cell of the box and a flow for each of its pairs; its box may lie
/// anywhere. After an error the canvas is what the records before the broken one leave. It takes no memory.
pub fn replay_cuts(canvas: &mut Canvas, sample: &Volume, cuts: &[CutRecord]) -> Result<(), Broken>
    requires over { StandsOver canvas.old sample.now }
    requires formed { All IsFormed cuts.now }
    ensures replayed { Replays sample.now canvas.old.map cuts.now canvas.new.map result }
    ensures broken { OnErr result (EachStands sample.now canvas.old.map cuts.now → ⊥) }
    ensures least { OnOk result (EachLeast sample.now canvas.old.map cuts.now) }
    ensures keep { OnOk result (EachOver KeepsFixed canvas.old.map cuts.now) }
    ensures over { StandsOver canvas.new sample.now }
    ensures canvas { IsCanvas canvas.new }
{
    // Called for their contracts only: they show the prover that these are a map and a volume.
    let _map = canvas.map();
    let _samples = sample.samples();
    replay_each(canvas, sample, cuts)
}
