//! The laws of nets, each the contract of a function with nothing to do.
ghost use Rattle.residual_net.specs.NetLaws.{ArrivedGetOut, ArrivedIsOut, ArrivedRises, ArrivedWithinCut, CancelLowersArrivals, ClosedGrows, ClosedIsCut, ClosedSurvivesPush, LastIsArrival, NetFits, NetIsFeasible, PushMovesArrivals, SentIsArrived, SuppliesBetween};

/// The arrivals of a net are those of its plan.
#[tactic(auto, using(crate::proofs::Law::arrived_is_out))]
pub fn arrived_is_out()
    ensures { ArrivedIsOut }
{}

/// At no moment have more people arrived than a cut is worth.
#[tactic(auto, using(crate::proofs::Law::arrived_within))]
pub fn arrived_within_cut()
    ensures { ArrivedWithinCut }
{}

/// Where no residual step enters the pairs labelled at most k, as many have arrived by k as the cut of the others is worth.
#[tactic(auto, using(crate::proofs::Law::closed_is_cut))]
pub fn closed_is_cut()
    ensures { ClosedIsCut }
{}

/// A closed set stays closed under every push along a path that begins outside it.
pub fn closed_survives_push()
    ensures { ClosedSurvivesPush }
{}

/// A closed set and what a search adds to it are closed where every step into something new starts within the two.
#[tactic(auto, using(crate::proofs::Survive::closed_grows))]
pub fn closed_grows()
    ensures { ClosedGrows }
{}

/// A net that isn't Over and has everybody sent stands for its plan.
pub fn net_fits()
    ensures { NetFits }
{}

/// A net that isn't Over and has everybody sent has a feasible plan.
#[tactic(auto, using(crate::proofs::Fit::feasible))]
pub fn net_is_feasible()
    ensures { NetIsFeasible }
{}

/// A push brings its people to the last moment of its path, from the source or from a later arrival.
#[tactic(auto, using(crate::proofs::Effects::push_moves))]
pub fn push_moves_arrivals()
    ensures { PushMovesArrivals }
{}

/// A cancel takes its people off those sent, and off the arrivals from its path's last moment on.
pub fn cancel_lowers_arrivals()
    ensures { CancelLowersArrivals }
{}

/// Everybody who comes in by the horizon arrives by then exactly where everybody is sent.
#[tactic(auto, using(crate::proofs::SentLemmas::entered_sent, crate::proofs::SentLemmas::sent_enter))]
pub fn sent_is_arrived()
    ensures { SentIsArrived }
{}

/// Supplies whose limits are each at most those of two models together may be sent, as on the way from one model to another.
#[tactic(auto, using(crate::proofs::Effects::supplies_between))]
pub fn supplies_between()
    ensures { SuppliesBetween }
{}

/// Everybody who ever arrives has arrived by a moment exactly where the last move arrives by then.
pub fn last_is_arrival()
    ensures { LastIsArrival }
{}

/// No moment has more arrivals than a later one.
pub fn arrived_rises()
    ensures { ArrivedRises }
{}

/// The plan of a net within its limits takes out whoever arrives, when the others are not there.
#[tactic(auto, using(crate::proofs::PartLemmas::arrived_get_out))]
pub fn arrived_get_out()
    ensures { ArrivedGetOut }
{}
