//! The laws, each the contract of a function with nothing to do.
ghost use Rattle.evac_law.specs.Laws.{AllOutIsClearable, AllOutLeavesNobody, CertifiedIsBest, CertifiedIsClearable, CertifiedIsQuickest, CertifiedPlansAgree, EditKeepsShape, EmptyCut, EntrantsOfTable, InverseUndoes, MovesOfTable, PartsAreBounded, ShortfallBarsClearing, StatedCutIsWorth, TightIsEqual, WeakDuality};

/// No feasible plan has more people out by a moment than a cut is worth there.
pub fn weak_duality()
    ensures { WeakDuality }
{}

/// The cut of no pair is worth those who have come in by then, at most the people.
pub fn empty_cut()
    ensures { EmptyCut }
{}

/// Where everybody is out by a moment, nobody is inside then, on an arc or still to come.
pub fn all_out_leaves_nobody()
    ensures { AllOutLeavesNobody }
{}

/// The cut that a block states for a period is worth as many as its plan has out by then.
pub fn stated_cut_is_worth()
    ensures { StatedCutIsWorth }
{}

/// At no moment has a feasible plan more people out than a certified one.
pub fn certified_is_best()
    ensures { CertifiedIsBest }
{}

/// Where a cut is worth less than the people, no feasible plan takes everybody out.
pub fn shortfall_bars_clearing()
    ensures { ShortfallBarsClearing }
{}

/// An edit keeps the names, the ends and traversal times of the arcs, the horizon, the period and the entrants.
pub fn edit_keeps_shape()
    ensures { EditKeepsShape }
{}

/// The inverse of an edit gives the old model back.
pub fn inverse_undoes()
    ensures { InverseUndoes }
{}

/// Two certified plans of one model clear at the same moment and have as many people out by each moment.
pub fn certified_plans_agree()
    ensures { CertifiedPlansAgree }
{}

/// Of the feasible plans that take everybody out, a certified one is over first and has the least person-periods.
pub fn certified_is_quickest()
    ensures { CertifiedIsQuickest }
{}

/// A plan that fills a cut has as many people out as the cut is worth.
pub fn tight_is_equal()
    ensures { TightIsEqual }
{}

/// A model with a certified plan is clearable.
pub fn certified_is_clearable()
    ensures { CertifiedIsClearable }
{}

/// A model from which a feasible plan takes everybody out by some moment can be cleared, whatever that plan does later.
pub fn all_out_is_clearable()
    ensures { AllOutIsClearable }
{}

/// What enters each arc by the moves of a table of flows is what the table says.
pub fn moves_of_table()
    ensures { MovesOfTable }
{}

/// Who comes into a node at a moment by the entrants of a table is whom the table says.
pub fn entrants_of_table()
    ensures { EntrantsOfTable }
{}

/// However many of a building's people are left away, no more of the others get out than a cut is worth at the horizon.
pub fn parts_are_bounded()
    ensures { PartsAreBounded }
{}
