// What the definitions mean.
ghost use Rattle.cut_replay.specs.Replay.{BrokenStandsNot, StandingFits, StandingIsLeast, StandingKeeps, StandingLeavesMap};

/// A law, with nothing to run: where each record stands over the map that the records before it leave, each
/// choice is least there, each placement fits, each fixed cell keeps its source, and a map is left.
pub fn records_that_stand()
    ensures least { StandingIsLeast }
    ensures fit { StandingFits }
    ensures keep { StandingKeeps }
    ensures map { StandingLeavesMap }
{}

/// A law, with nothing to run: where a record is the first broken one, not every record stands.
pub fn broken_record_stands_not()
    ensures { BrokenStandsNot }
{}
