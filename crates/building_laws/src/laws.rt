//! The laws, each the contract of a function with nothing to do.
ghost use Rattle.building_laws.specs.Delays.{OneArcDelaysLittle, WindowDelaysByItsLength, CommonWindowDelaysByItsLength};
ghost use Rattle.building_laws.specs.Doors.{DoorsAreSubstitutes, GreedyExitsAreGood, SeveralExitsCostMost};
ghost use Rattle.building_laws.specs.Duality.{BestAtEveryMoment, MostIsReached};
ghost use Rattle.building_laws.specs.Exits.{TwoExitsCostMost};
ghost use Rattle.building_laws.specs.Filled.{EqualIsTight, FullInEveryBestPlan, StatedCutsAreFilled};
ghost use Rattle.building_laws.specs.Finer.{FinerClearsWithin, FinerPeriodsAgree, RoundedClearWithin, RoundedTravelsBracket};
ghost use Rattle.building_laws.specs.Looser.{LooserKeepsPlans, LooseningKeepsPlans};
ghost use Rattle.building_laws.specs.Pace.{PaceNeverFalls};
ghost use Rattle.building_laws.specs.People.{FewerAreNoLater, MoreAreNoSooner, ShiftedChangeLittle};
ghost use Rattle.building_laws.specs.Rooms.{NoWindowsAreSteady, NobodyLaterHasRoom, RoomEditsKeepMost, RoomsKeepMost};
ghost use Rattle.building_laws.specs.Shares.{RoundedRatesBracket, SharesAgree};
ghost use Rattle.building_laws.specs.Slower.{SlowerIsNoBetter};
ghost use Rattle.building_laws.specs.Waits.{BestWaitsAtHome};
ghost use Rattle.building_laws.specs.Ways.{WaysKeepPace};
ghost use Rattle.building_laws.specs.Widening.{WideningIsBounded};

/// Where some plan is feasible up to a moment, one plan is best by every moment up to then at once, and cuts show it.
pub fn best_at_every_moment()
    ensures { BestAtEveryMoment }
{}

/// Where some plan is feasible up to the horizon, as many people can get out by then as the least cut is worth.
pub fn most_is_reached()
    ensures { MostIsReached }
{}

/// Rates are steady where no door, corridor or stair is closed for a time.
#[tactic(auto, using(crate::proofs::Plain::no_windows_are_steady))]
pub fn no_windows_are_steady()
    ensures { NoWindowsAreSteady }
{}

/// Each node has room for all who come into it from nowhere, where everybody is inside at the start.
#[tactic(auto, using(crate::proofs::Plain::nobody_later_has_room))]
pub fn nobody_later_has_room()
    ensures { NobodyLaterHasRoom }
{}

/// Where rates are steady and there is room, the capacity of a room, hall or stair changes neither how many can be out by a moment nor
/// whether everybody can get out. The plan, and when a room is empty, may change.
#[tactic(auto, using(crate::proofs::Rooms::rooms_keep_most))]
pub fn rooms_keep_most()
    ensures { RoomsKeepMost }
{}

/// So it is after an edit of a capacity, where there is room before and after it.
pub fn room_edits_keep_most()
    ensures { RoomEditsKeepMost }
{}

/// A wider door, a larger room, or a door or an exit that is opened never harms: each plan stays feasible, with as many out.
#[tactic(auto, using(crate::proofs::Looser::looser_keeps_plans))]
pub fn looser_keeps_plans()
    ensures { LooserKeepsPlans }
{}

/// So it is after an edit that reopens, takes a window away, or sets a rate or a capacity that is no smaller.
pub fn loosening_keeps_plans()
    ensures { LooseningKeepsPlans }
{}

/// Where rates are steady and there is room, a longer walk or a narrower door lets nobody out sooner.
#[tactic(auto, using(crate::proofs::Slower::slower_is_no_better))]
pub fn slower_is_no_better()
    ensures { SlowerIsNoBetter }
{}

/// Where w people leave a room before it begins, by each moment never more are out and at most w fewer, and what could be cleared can be.
pub fn fewer_are_no_later()
    ensures { FewerAreNoLater }
{}

/// Where w people more start in a room, by each moment never fewer are out and at most w more.
pub fn more_are_no_sooner()
    ensures { MoreAreNoSooner }
{}

/// Where w people start in one room rather than in another, by each moment at most w more or fewer are out.
#[tactic(auto, using(crate::proofs::People::shifted_change_little))]
pub fn shifted_change_little()
    ensures { ShiftedChangeLittle }
{}

/// Two exits lost together keep inside, by each moment, at least as many people as each of them lost alone, added up.
pub fn two_exits_cost_most()
    ensures { TwoExitsCostMost }
{}

/// Doors into exits are substitutes: what two changes at them bring together by a moment is at most what each brings alone, added up.
#[tactic(auto, using(crate::proofs::Doors::doors_are_substitutes))]
pub fn doors_are_substitutes()
    ensures { DoorsAreSubstitutes }
{}

/// So several exits lost together keep inside, by each moment, at least as many people as each of them lost alone, added up.
#[tactic(auto, using(crate::proofs::Losses::several_exits_cost_most))]
pub fn several_exits_cost_most()
    ensures { SeveralExitsCostMost }
{}

/// And who opens one exit after the other, each time the one with which most are out, lacks at most (1 - 1/n)^i after i of them of what the
/// best n exits let out: with as many as the best, less than 37 in 100.
#[tactic(auto, using(crate::proofs::Greedy::greedy_exits_are_good))]
pub fn greedy_exits_are_good()
    ensures { GreedyExitsAreGood }
{}

/// Where rates are steady and there is room, one door, corridor or stair that is disturbed at no more than w moments delays nobody by more
/// than w.
#[tactic(auto, using(crate::proofs::Delays::one_arc_delays_little))]
pub fn one_arc_delays_little()
    ensures { OneArcDelaysLittle }
{}

/// So it is with one closure of w moments.
#[tactic(auto, using(crate::proofs::Windows::window_delays_by_its_length))]
pub fn window_delays_by_its_length()
    ensures { WindowDelaysByItsLength }
{}

/// Where each room has place for everybody, so it is with any doors, corridors and stairs that are closed for the same w moments.
#[tactic(auto, using(crate::proofs::Windows::common_window_delays_by_its_length))]
pub fn common_window_delays_by_its_length()
    ensures { CommonWindowDelaysByItsLength }
{}

/// Where from each room with people a way for r at once is no longer than u, from moment u on r more are out at each moment until all are; so
/// all are out by u + (people - 1) / r, and a horizon that leaves time for that is enough.
#[tactic(auto, using(crate::proofs::Ways::ways_keep_pace))]
pub fn ways_keep_pace()
    ensures { WaysKeepPace }
{}

/// While fewer are out than start in any room with people, no fewer come out at a moment than at the one before.
#[tactic(auto, using(crate::proofs::Pace::pace_never_falls))]
pub fn pace_never_falls()
    ensures { PaceNeverFalls }
{}

/// If each person counts as s shares, and capacities and rates are s times as large, best plans have s times as many out by each moment. So
/// nobody gains by going in fractions of a person.
#[tactic(auto, using(crate::proofs::Shares::shares_agree))]
pub fn shares_agree()
    ensures { SharesAgree }
{}

/// If rates and capacities are any numbers of shares, the curve lies between those with both rounded down and rounded up to whole people.
pub fn rounded_rates_bracket()
    ensures { RoundedRatesBracket }
{}

/// If nobody comes later, or each node has room for everybody, shorter periods change nothing: by the end of each long period as many are out.
#[tactic(auto, using(crate::proofs::Finer::finer_periods_agree))]
pub fn finer_periods_agree()
    ensures { FinerPeriodsAgree }
{}

/// So a building that is cleared at moment C is cleared in one of the short periods of that moment.
pub fn finer_clears_within()
    ensures { FinerClearsWithin }
{}

/// If rates are steady and there is room, no fewer are out than with travel times rounded up to whole periods, and no more than with travel
/// times rounded down.
#[tactic(auto, using(crate::proofs::Rounded::rounded_travels_bracket))]
pub fn rounded_travels_bracket()
    ensures { RoundedTravelsBracket }
{}

/// So it is cleared no sooner than the moment with travel times rounded down, and before the moment after that with them rounded up.
pub fn rounded_clear_within()
    ensures { RoundedClearWithin }
{}

/// A plan with as many people out by a moment as a cut is worth fills the cut: its arcs and rooms are full, and nobody goes back over it.
pub fn equal_is_tight()
    ensures { EqualIsTight }
{}

/// So every best plan fills the cut that a block states, whatever plan the block has.
#[tactic(auto, using(crate::proofs::Filled::stated_cuts_are_filled))]
pub fn stated_cuts_are_filled()
    ensures { StatedCutsAreFilled }
{}

/// If the labels of a block make an arc at a moment an item of a cut, the arc is full then in every best plan.
pub fn full_in_every_best_plan()
    ensures { FullInEveryBestPlan }
{}

/// However much arcs are widened and rooms enlarged, no more are out by a moment than a cut was worth then and its items grow by.
#[tactic(auto, using(crate::proofs::Widening::widening_is_bounded))]
pub fn widening_is_bounded()
    ensures { WideningIsBounded }
{}

/// If rates are steady and nobody comes later, some plan is best by every moment and never has more people in a room than start there.
#[tactic(auto, using(crate::proofs::Waits::best_waits_at_home))]
pub fn best_waits_at_home()
    ensures { BestWaitsAtHome }
{}
