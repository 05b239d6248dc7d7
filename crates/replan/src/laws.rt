//! The laws, each the contract of a function with nothing to do.
ghost use Rattle.replan.specs.RestLaws.{AdvanceKeepsCurve, AdvancesAddUp, CertifiedRestIsBest, RestGoesOn, RestIsClearable};

/// After the moves made before a moment a plan goes on as in what is left of the building.
pub fn rest_goes_on()
    ensures { RestGoesOn }
{}

/// What is left of a building is a building that can be cleared, and nobody is lost in it.
pub fn rest_is_clearable()
    ensures { RestIsClearable }
{}

/// A certified plan of what is left is best among all plans that make the same moves before.
pub fn certified_rest_is_best()
    ensures { CertifiedRestIsBest }
{}

/// Carrying a plan out, and then a plan of what is left, is carrying one plan out.
pub fn advances_add_up()
    ensures { AdvancesAddUp }
{}

/// A best plan that is carried out, and then a best plan of what is left, have as many out by each moment as the plan before.
pub fn advance_keeps_curve()
    ensures { AdvanceKeepsCurve }
{}
