// What the definitions mean.
ghost use Rattle.standing_files.specs.Standing.{LoopStands, OneFirstBrokenRule, QuiltStands, RunStands, StandingFilesBreakNone, StandingRecordsAreLeast, VersionsDontCount};

/// A law, with nothing to run: files that stand break no rule, and others have one first broken rule at
/// most.
pub fn one_first_broken_rule()
    ensures none { StandingFilesBreakNone }
    ensures one { OneFirstBrokenRule }
{}

/// A law, with nothing to run: the files of a run stand. Its records leave a full map, each stands over
/// the map that the records before it leave, and its picture is that of the map.
pub fn files_of_a_run_stand()
    ensures { RunStands }
{}

/// A law, with nothing to run: the files of a quilt stand. Its blocks leave a full map, each stands over the map
/// that the blocks before it leave, and its picture is that of the map.
pub fn files_of_a_quilt_stand()
    ensures { QuiltStands }
{}

/// A law, with nothing to run: the files of a loop stand. Its walk record stands, its map has the frames of
/// the walk, and so has its clip.
pub fn files_of_a_loop_stand()
    ensures { LoopStands }
{}

/// A law, with nothing to run: records that stand are least. No admissible choice of a cut leaves a smaller
/// total, no boundary of a block costs less, and no closed walk of as many frames costs less.
pub fn standing_records_are_least()
    ensures { StandingRecordsAreLeast }
{}

/// A law, with nothing to run: a verdict is that on the same map and records in other versions too.
pub fn versions_do_not_count()
    ensures { VersionsDontCount }
{}
