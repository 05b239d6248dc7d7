//! The laws, each the contract of a function with nothing to do.
ghost use Rattle.edit_session.specs.Laws.{CutsStay, GoesOnAsFresh, StateIsQuickest};

/// What an edit or an undo goes on to has the last moment and the curve of whatever begins with the same model.
pub fn goes_on_as_fresh()
    ensures { GoesOnAsFresh }
{}

/// Of the feasible plans that take everybody out, a state's is over first and has the fewest person-periods.
pub fn state_is_quickest()
    ensures { StateIsQuickest }
{}

/// The cut of each moment below whatever an edit opens has the same nodes at the same moments as before.
pub fn cuts_stay()
    ensures { CutsStay }
{}
