//! The laws of drills, each the contract of a function with nothing to do.
ghost use Rattle.drill_building.specs.Laws.{DrillsAreClearable, DrillsAreValid};

/// The model of a drill is valid for each number of storeys up to the limit.
pub fn drills_are_valid()
    ensures { DrillsAreValid }
{}

/// Everybody can get out of a drill's building, for each number of storeys up to the limit.
pub fn drills_are_clearable()
    ensures { DrillsAreClearable }
{}
