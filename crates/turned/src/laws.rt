// Laws of the definitions, each the contract of a function that does nothing.
ghost use Rattle.std.specs.Prelude.{◌≡◌, ◌↔◌, ℕ, List};
ghost use Rattle.cells.specs.declared.place.At.{At};
ghost use Rattle.cells.specs.declared.place.Size.{Size};
ghost use Rattle.cells.specs.Places.{IsInside};
ghost use Rattle.cells.specs.PartLists.{parts_of};
ghost use Rattle.cells.specs.SizeLists.{stock_place};
ghost use Rattle.cells.specs.Cells.{Cells, HasCell, IsVolume, cell_at, sizes_of};
ghost use Rattle.turned.specs.declared.places.Turned.{Turned};
ghost use Rattle.turned.specs.Turns.{turn_from, turn_size, turn_to};
ghost use Rattle.turned.specs.TurnedParts.{turned, turned_of, turned_parts, turned_sizes_of};
ghost use Rattle.turned.specs.TurnedPlaces.{IsUntouched};

/// A turn and its way back cancel, both ways, and a place is inside the turned size exactly where the cell
/// that comes there is inside the size.
pub fn turns_and_back()
    ensures from_to { (t : ℕ) (size : Size) (p : At) →
        turn_from t size (turn_to t size p) ≡ p }
    ensures to_from { (t : ℕ) (size : Size) (p : At) →
        turn_to t size (turn_from t size p) ≡ p }
    ensures inside { (t : ℕ) (size : Size) (p : At) →
        IsInside (turn_size t size) p ↔ IsInside size (turn_from t size p) }
{}

/// The parts of the turned volume are the turns of each part in order, and they have the sizes of the
/// turns. Each place of a turned part has the cell that the turn moves there.
pub fn turned_parts_stand()
    ensures parts { (v : Cells) → parts_of (turned_of v) ≡ turned_parts v }
    ensures sizes { (v : Cells) → sizes_of (turned_of v) ≡ turned_sizes_of (sizes_of v) }
    ensures cells { (t : ℕ) (part : Cells) (p : At) → IsInside (turn_size t part.size) p →
        HasCell part (turn_from t part.size p) →
        cell_at (turned t part) p ≡ cell_at part (turn_from t part.size p) }
{}

/// Turned sizes are equal only where the sizes are: turn 0 keeps them.
pub fn turned_sizes_tell()
    ensures { (sizes other : List Size) →
        turned_sizes_of sizes ≡ turned_sizes_of other → sizes ≡ other }
{}

/// At most one cell comes to a place of the turned samples, and the place has the bytes of that cell.
pub fn same_cell()
    ensures one { (sizes : List Size) (p : At) (there other : Turned) →
        IsUntouched sizes p there → IsUntouched sizes p other → there ≡ other }
    ensures cell { (v : Cells) (p : At) (there : Turned) → IsVolume v →
        IsUntouched (sizes_of v) p there →
        cell_at (turned_of v) p ≡ cell_at v (stock_place (sizes_of v) there.sample there.at) }
{}
