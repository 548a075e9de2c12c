// Laws of the definitions, each the contract of a function that does nothing.
ghost use Rattle.std.specs.Prelude.{◌≡◌, List, ℕ};
ghost use Rattle.strip_boundary.specs.Strips.{ErrorTable};
ghost use Rattle.strip_boundary.specs.Boundaries.{IsFirstLeast};
ghost use Rattle.strip_boundary.specs.Records.{AreTightSums};

/// A strip has one first least boundary: what depends on it is a function of the strip.
pub fn first_least_boundary_is_one()
    ensures { (strip : ErrorTable) (path other : List ℕ) →
        IsFirstLeast strip path → IsFirstLeast strip other → path ≡ other }
{}

/// A strip has one table of tight sums.
pub fn tight_sums_are_one()
    ensures { (strip : ErrorTable) (sums other : List ℕ) →
        AreTightSums strip sums → AreTightSums strip other → sums ≡ other }
{}
