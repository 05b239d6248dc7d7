//! The laws of routes, each the contract of a function with nothing to do.
ghost use Rattle.route_decompose.specs.Laws.{RoutesAreFew, RoutesCover};

/// Routes that are handed out until nothing is left cover the plan.
#[tactic(auto, using(crate::proofs::HandedLemmas::routes_cover))]
pub fn routes_cover()
    ensures { RoutesCover }
{}

/// However the routes are handed out, there are no more of them than places that the plan uses.
#[tactic(auto, using(crate::proofs::HandedLemmas::routes_few))]
pub fn routes_are_few()
    ensures { RoutesAreFew }
{}
