// The checker: the rules of a cut record, in their order.
ghost use Rattle.std.specs.Prelude.{◌≡◌, ◌<◌, IfErr, IfSome, MatchBool, OnOk, length, option_copied, []};
ghost use Rattle.cells.specs.Boxes.{HasCells};
ghost use Rattle.cells.specs.Distances.{distance};
ghost use Rattle.cells.specs.Places.{cell_count};
ghost use Rattle.map_canvas.specs.Canvases.{StandsOver};
ghost use Rattle.map_canvas.specs.Choices.{Fits};
ghost use Rattle.costs.specs.Lawful.{AreMarks, IsLeastChoice, IsLeastHeld, held_marks};
ghost use Rattle.boxes.specs.Pairs.{pair_count};
ghost use Rattle.cut_check.specs.Records.{CutStands, IsFirstCutFault, IsLawfulCut, setting};
ghost use Rattle.cut_check.specs.Steps.{LiesOver};

use crate::balance::value_of;
use crate::bounds::first_unbounded;
use crate::record::{
    BALANCE_RULE, BOUNDS_RULE, CutFault, CutRecord, FILL_RULE, FIT_RULE, KEEP_RULE, VALUE_RULE,
};
use crate::rules::{first_new, first_unfilled};
use cells::{Box3, Volume};
use costs::window_after;
use map_canvas::{Canvas, Placement};

// Rule 1, for a box that has a cell.
pub(crate) fn fits(canvas: &Canvas, sample: &Volume, placement: &Placement) -> bool
    requires { HasCells placement.now.rect.size }
    ensures { MatchBool result (LiesOver canvas.now.map sample.now placement.now)
        (Fits canvas.now.map.size sample.now placement.now → ⊥) }
{
    let sources = Box3 {
        corner: placement.from,
        size: placement.rect.size,
    };
    // Called for its contract only: it shows the prover that the sample is a volume.
    let _sample = sample.samples();
    canvas.picture().holds(&placement.rect) && sample.holds(&sources)
}

// The rules of flows, 4 to 6.
fn check_flows(
    canvas: &Canvas,
    sample: &Volume,
    cut: &CutRecord,
    held: &[bool],
) -> Result<(), CutFault>
    requires fits { LiesOver canvas.now.map sample.now cut.now.placement }
    requires lawful { IsLawfulCut (setting canvas.now.map sample.now held.now) cut.now }
    ensures stands { OnOk result (CutStands (setting canvas.now.map sample.now held.now) cut.now) }
    ensures fault { IfErr result (IsFirstCutFault
        (setting canvas.now.map sample.now held.now) cut.now) }
{
    if let Some(number) = first_unbounded(canvas.map(), sample, cut) {
        return Err(CutFault {
            kind: BOUNDS_RULE,
            place: number,
        });
    }
    let value = match value_of(canvas, cut, held) {
        Ok(value) => value,
        Err(i) => {
            return Err(CutFault {
                kind: BALANCE_RULE,
                place: i as u64,
            });
        }
    };
    let window = window_after(canvas, sample, &cut.placement, cut.choice.as_slice());
    if 0 <= value && value as u64 == window {
        Ok(())
    } else {
        Err(CutFault {
            kind: VALUE_RULE,
            place: 0,
        })
    }
}

// The rules after the first.
pub(crate) fn check_fitting(
    canvas: &Canvas,
    sample: &Volume,
    cut: &CutRecord,
    held: &[bool],
) -> Result<(), CutFault>
    requires fits { LiesOver canvas.now.map sample.now cut.now.placement }
    ensures stands { OnOk result (CutStands (setting canvas.now.map sample.now held.now) cut.now) }
    ensures fault { IfErr result (IsFirstCutFault
        (setting canvas.now.map sample.now held.now) cut.now) }
{
    if let Some(i) = first_unfilled(canvas.map(), cut) {
        return Err(CutFault {
            kind: FILL_RULE,
            place: i as u64,
        });
    }
    if let Some(i) = first_new(canvas, cut, held) {
        return Err(CutFault {
            kind: KEEP_RULE,
            place: i as u64,
        });
    }
    check_flows(canvas, sample, cut, held)
}

/// Whether a cut record stands over a canvas, with cells of its box that are held too: no admissible
/// choice without a held cell leaves a smaller total then. `held` has a mark for each cell of the box, in
/// raster order, or is missing where none is held. It takes no memory.
pub fn check_held(
    canvas: &Canvas,
    sample: &Volume,
    cut: &CutRecord,
    held: Option<&[bool]>,
) -> Result<(), CutFault>
    requires over { StandsOver canvas.now sample.now }
    requires cells { HasCells cut.now.placement.rect.size }
    requires choice { length cut.now.choice ≡ cell_count cut.now.placement.rect.size }
    requires flows { length cut.now.flows ≡ pair_count cut.now.placement.rect.size }
    requires held { IfSome (option_copied held) (AreMarks canvas.now.map cut.now.placement) }
    ensures stands { OnOk result (CutStands
        (setting canvas.now.map sample.now (held_marks (option_copied held.entry))) cut.now) }
    ensures fault { IfErr result (IsFirstCutFault
        (setting canvas.now.map sample.now (held_marks (option_copied held.entry))) cut.now) }
    ensures least { OnOk result (IsLeastHeld (distance sample.now) canvas.now.map cut.now.placement
        (held_marks (option_copied held.entry)) cut.now.choice) }
{
    if !fits(canvas, sample, &cut.placement) {
        return Err(CutFault {
            kind: FIT_RULE,
            place: 0,
        });
    }
    check_fitting(canvas, sample, cut, held.unwrap_or(&[]))
}

/// The same with no cell held: no admissible choice leaves a smaller total.
pub fn check_cut(canvas: &Canvas, sample: &Volume, cut: &CutRecord) -> Result<(), CutFault>
    requires over { StandsOver canvas.now sample.now }
    requires cells { HasCells cut.now.placement.rect.size }
    requires choice { length cut.now.choice ≡ cell_count cut.now.placement.rect.size }
    requires flows { length cut.now.flows ≡ pair_count cut.now.placement.rect.size }
    ensures stands { OnOk result (CutStands (setting canvas.now.map sample.now []) cut.now) }
    ensures fault { IfErr result (IsFirstCutFault (setting canvas.now.map sample.now []) cut.now) }
    ensures least { OnOk result (IsLeastChoice
        (distance sample.now) canvas.now.map cut.now.placement cut.now.choice) }
{
    check_held(canvas, sample, cut, None)
}
