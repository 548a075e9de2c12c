// What the definitions mean.
ghost use Rattle.block_check.specs.Records.{StandingBlockBreaksNone, StandingBlockIsLeast};
ghost use Rattle.block_check.specs.Several.{BrokenBlockStandsNot, EachStandingIsLeast, OneFirstBrokenBlock};

/// A law, with nothing to run: each boundary of a record that stands is least of all boundaries of its strip,
/// whoever made it; and a record that stands breaks no rule.
pub fn standing_blocks_are_least()
    ensures least { StandingBlockIsLeast }
    ensures unbroken { StandingBlockBreaksNone }
{}

/// A law, with nothing to run: where each of several records stands over the map that the records before it
/// leave, each boundary is least there, whoever made it.
pub fn blocks_that_stand()
    ensures { EachStandingIsLeast }
{}

/// A law, with nothing to run: where one of several records is the first broken one, not every record stands.
pub fn broken_block_stands_not()
    ensures { BrokenBlockStandsNot }
{}

/// A law, with nothing to run: of several records there is one first broken one at most, with one first fault.
pub fn one_first_broken_block()
    ensures { OneFirstBrokenBlock }
{}
