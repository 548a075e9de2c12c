// Laws of the definitions, each the contract of a function that does nothing.
ghost use Rattle.std.specs.Prelude.{◌≡◌, Bool, List};
ghost use Rattle.cells.specs.declared.place.Size.{Size};
ghost use Rattle.cells.specs.Places.{IsSmall};
ghost use Rattle.cells.specs.Cells.{Cells, IsVolume};
ghost use Rattle.map_canvas.specs.declared.canvas.Placement.{Placement};
ghost use Rattle.map_canvas.specs.Maps.{IsMap, SourceMap};
ghost use Rattle.map_canvas.specs.Choices.{Fits, HasNewSources, IsAfter, map_after};

/// The new sources of a placement that fits have cells in the sample, and its box is as small as an
/// output.
pub fn new_sources()
    ensures sources { (output : Size) (sample : Cells) (placement : Placement) →
        Fits output sample placement → IsVolume sample → HasNewSources sample placement }
    ensures small { (output : Size) (sample : Cells) (placement : Placement) →
        Fits output sample placement → IsSmall output → IsSmall placement.rect.size }
{}

/// There is one map after a choice.
pub fn after_is_one()
    ensures after { (m : SourceMap) (sample : Cells) (placement : Placement) (choice : List Bool) →
        IsMap m → Fits m.size sample placement
        → IsAfter m placement choice (map_after m placement choice) }
    ensures one { (m after : SourceMap) (placement : Placement) (choice : List Bool) →
        IsMap m → IsMap after
        → IsAfter m placement choice after → after ≡ map_after m placement choice }
{}
