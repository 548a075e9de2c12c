// Laws of the definitions, each the contract of a function that does nothing.
ghost use Rattle.std.specs.Prelude.{◌≡◌, ◌<◌, ℕ, List, All, length as length_of};
ghost use Rattle.frame_distance.specs.Steps.{Steps};
ghost use Rattle.loop_walk.specs.FirstWalks.{IsFirstWalk};
ghost use Rattle.loop_walk.specs.Walks.{IsClosedWalk, IsLeastWalk};
ghost use Rattle.loop_walk.specs.Tables.{AreTightTables, entry_count};
ghost use Rattle.loop_walk.specs.Records.{IsFirstLoopFault, WalkStands};
ghost use Rattle.loop_walk.specs.declared.fault.LoopFault.{LoopFault};

/// Each frame of a closed walk is a frame of the clip.
pub fn closed_walk_visits_frames()
    ensures { (costs : Steps) (walk : List ℕ) → IsClosedWalk costs walk →
        All (λ frame. frame < costs.frames) walk }
{}

/// Step costs and a length have one first walk.
pub fn first_walk_is_one()
    ensures { (costs : Steps) (len : ℕ) (walk other : List ℕ) →
        IsLeastWalk costs len walk → IsFirstWalk costs len walk →
        IsLeastWalk costs len other → IsFirstWalk costs len other → walk ≡ other }
{}

/// Step costs and a length have one list of tight tables.
pub fn tight_tables_are_one()
    ensures { (costs : Steps) (len : ℕ) (tables other : List ℕ) →
        AreTightTables costs len tables → AreTightTables costs len other → tables ≡ other }
{}

/// A record that stands breaks no rule.
pub fn standing_record_has_no_fault()
    ensures { (costs : Steps) (walk tables : List ℕ) (fault : LoopFault) →
        length_of tables ≡ entry_count costs (length_of walk) →
        WalkStands costs walk tables → IsFirstLoopFault costs walk tables fault → ⊥ }
{}
