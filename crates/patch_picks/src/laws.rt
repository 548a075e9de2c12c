// What the definitions mean.
ghost use Rattle.std.specs.Prelude.{◌≡◌, ◌<◌, ℕ, All, Contains, Some, length};
ghost use Rattle.cells.specs.declared.place.At.{At};
ghost use Rattle.cells.specs.Boxes.{HasCells, HoldsBox};
ghost use Rattle.cells.specs.Cells.{sizes_of};
ghost use Rattle.cells.specs.SizeLists.{size_of_part};
ghost use Rattle.boxes.specs.Rooms.{HasRoom};
ghost use Rattle.map_canvas.specs.Choices.{Fits, laid_from};
ghost use Rattle.patch_picks.specs.Lists.{fit_list, part_lists};
ghost use Rattle.patch_picks.specs.Picks.{ThereIsOnePick};
ghost use Rattle.patch_picks.specs.Steps.{ThereIsOneNext};

use cells::{Box3, Size, Volume};

/// A law, with nothing to run: the list of a box over all parts of a sample has exactly the placements of
/// that box that fit. It has an entry where the box has room in some part.
pub fn box_list_is_all_that_fit(rect: &Box3, output: Size, sample: &Volume)
    requires some { HasCells rect.now.size }
    requires inside { HoldsBox output rect.now.corner rect.now.size }
    ensures fit { All (Fits output sample.now) (part_lists (fit_list rect.now) sample.now) }
    ensures each { (from : At) → Fits output sample.now (laid_from rect.now from)
        → Contains (part_lists (fit_list rect.now) sample.now) (laid_from rect.now from) }
    ensures some { (number : ℕ) (part : Size)
        → size_of_part (sizes_of sample.now) number ≡ Some part → HasRoom part rect.now.size →
        0 < length (part_lists (fit_list rect.now) sample.now) }
{}

/// A law, with nothing to run: of given errors, candidates and draws there is one pick.
pub fn there_is_one_pick()
    ensures { ThereIsOnePick }
{}

/// A law, with nothing to run: there is one next placement, and one place of the draws after it.
pub fn there_is_one_next_placement()
    ensures { ThereIsOneNext }
{}
