// What the definitions mean.
ghost use Rattle.std.specs.Prelude.{◌≡◌, ℕ, Bool, false, List};
ghost use Rattle.cells.specs.Boxes.{HoldsBox};
ghost use Rattle.map_canvas.specs.Maps.{IsFull, SourceMap};
ghost use Rattle.costs.specs.Lawful.{AreHeld, ChangesAsWindow, IsLawful, LeavesHeld, is_new};

use cells::At;
use map_canvas::Placement;

/// A law, with nothing to run: two admissible choices of a placement change the total of a map as they
/// change the window sum of the placement's box, where the output holds the box.
pub fn choices_change_the_total_as_their_window(placement: &Placement)
    ensures { (d : At → At → ℕ) (m : SourceMap) →
        HoldsBox m.size placement.now.rect.corner placement.now.rect.size →
        ChangesAsWindow d m placement.now }
{}

/// A law, with nothing to run: whatever is held, some admissible choice leaves it; and where every cell of
/// the output is filled, a choice with no new cell is admissible.
pub fn some_choice_is_lawful(placement: &Placement)
    ensures some { (m : SourceMap) (held : List Bool) → AreHeld m placement.now held →
        (choice : List Bool)
        × (IsLawful m placement.now choice × LeavesHeld placement.now held choice) }
    ensures old { (m : SourceMap) → IsFull m →
        HoldsBox m.size placement.now.rect.corner placement.now.rect.size → (choice : List Bool) →
        ((p : At) → is_new placement.now choice p ≡ false) → IsLawful m placement.now choice }
{}
