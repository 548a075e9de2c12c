// Laws of the definitions, each the contract of a function that does nothing.
ghost use Rattle.std.specs.Prelude.{◌≡◌, ℕ, Some};
ghost use Rattle.cells.specs.declared.place.At.{At};
ghost use Rattle.cells.specs.Cells.{Cells, IsVolume};
ghost use Rattle.cells.specs.PartLists.{HasOnePart, IsPartOf, StandsIn, part_numbered};

/// Each part of a volume lies in it with its own cells: the volume has the cell of a place of the part
/// at the place that [`crate::Sizes::stock`] gives.
pub fn parts_stand_in_their_volume()
    ensures part { (v : Cells) (number : ℕ) (part : Cells) →
        IsVolume v → part_numbered v number ≡ Some part → IsPartOf v number part }
    ensures cells { (v : Cells) (number : ℕ) (part : Cells) →
        part_numbered v number ≡ Some part → StandsIn v number part }
{}

/// A place is inside a volume exactly where one of the parts has it, and at most one has.
pub fn places_have_one_part()
    ensures { (v : Cells) (p : At) → HasOnePart v p }
{}
