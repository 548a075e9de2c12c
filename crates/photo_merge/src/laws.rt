// What the definitions mean.
ghost use Rattle.photo_merge.specs.MergeLaws.{MergesAreMerged, ThereIsOneMerge};

/// A law, with nothing to run: pictures and marks have one merge.
pub fn there_is_one_merge()
    ensures { ThereIsOneMerge }
{}

/// A law, with nothing to run: the map of a merge has the pictures' size. Each cell that is marked with a picture
/// comes from its own place of that picture, and every cell from its own place of one of them.
pub fn merges_are_merged()
    ensures { MergesAreMerged }
{}
