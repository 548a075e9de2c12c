// What the definitions mean.
ghost use Rattle.least_choice.specs.Fewest.{ThereIsOneFewest};

/// A law, with nothing to run: two choices of which each is the least one with the fewest old cells, and has
/// an entry for each cell of the box, are one list.
pub fn there_is_one_fewest_choice()
    ensures { ThereIsOneFewest }
{}
