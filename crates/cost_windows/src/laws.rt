// What the definitions of tables and worst windows mean.
ghost use Rattle.std.specs.Prelude.{◌≡◌, ℕ, Bool, List, Option};
ghost use Rattle.cells.specs.declared.place.At.{At};
ghost use Rattle.cells.specs.declared.place.Box3.{Box3};
ghost use Rattle.cells.specs.declared.place.Size.{Size};
ghost use Rattle.cells.specs.Boxes.{HasCells};
ghost use Rattle.map_canvas.specs.declared.canvas.Placement.{Placement};
ghost use Rattle.map_canvas.specs.Choices.{IsAfter};
ghost use Rattle.map_canvas.specs.Maps.{SourceMap, map_at};
ghost use Rattle.cost_windows.specs.Tables.{IsRight, IsRightBeside, SameBeside, WindowSums};
ghost use Rattle.cost_windows.specs.Windows.{IsWorst};

/// A law, with nothing to run: a table that was right for a map is right beside a box for a map that has
/// changed in the box alone; so after a choice beside the box of its placement.
pub fn table_right_beside_a_change()
    ensures change { (d : At → At → ℕ) (m n : At → Option At) (changed : Box3) (table : WindowSums)
        → SameBeside changed m n → IsRight d m table → IsRightBeside d n changed table }
    ensures choice { (d : At → At → ℕ) (before after : SourceMap) (placement : Placement)
        (choice : List Bool)
        (table : WindowSums) → IsAfter before placement choice after
        → IsRight d (map_at before) table → IsRightBeside d (map_at after) placement.rect table }
{}

/// A law, with nothing to run: of the windows of a size that has a cell there is one worst.
pub fn worst_window_is_one()
    ensures { (d : At → At → ℕ) (output : Size) (m : At → Option At) (window : Size)
        (corner other : At)
        → HasCells window → IsWorst d output m window corner → IsWorst d output m window other
        → corner ≡ other }
{}
