// What the rules of cut records mean.
ghost use Rattle.std.specs.Prelude.{[]};
ghost use Rattle.cells.specs.Cells.{Cells};
ghost use Rattle.cells.specs.Distances.{distance};
ghost use Rattle.map_canvas.specs.Maps.{SourceMap};
ghost use Rattle.costs.specs.Lawful.{AreHeld, IsLeastChoice, IsLeastHeld};
ghost use Rattle.cut_check.specs.declared.record.CutFault.{CutFault};
ghost use Rattle.cut_check.specs.Records.{CutStands, IsFirstCutFault, Setting, setting};

use crate::record::CutRecord;

/// A law, with nothing to run: where a record stands over a map, the total of the map after its choice is the
/// least among the admissible choices that leave the held cells; and among all admissible choices where none
/// is held.
pub fn choice_of_a_record_is_least(cut: &CutRecord)
    ensures held { (s : Setting) → AreHeld s.map cut.now.placement s.held → CutStands s cut.now
        → IsLeastHeld (distance s.sample) s.map cut.now.placement s.held cut.now.choice }
    ensures alone { (m : SourceMap) (sample : Cells) → CutStands (setting m sample []) cut.now
        → IsLeastChoice (distance sample) m cut.now.placement cut.now.choice }
{}

/// A law, with nothing to run: a record that stands breaks no rule. So a checker that answers as
/// `check_held` does accepts exactly the records that stand.
pub fn standing_record_has_no_fault(cut: &CutRecord)
    ensures { (s : Setting) (fault : CutFault) → CutStands s cut.now →
        IsFirstCutFault s cut.now fault → ⊥ }
{}
