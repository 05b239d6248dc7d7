//! Whether a plan keeps the rates.
ghost use Rattle.std.specs.Prelude.{◌≤◌, MatchOption, length};
ghost use Rattle.evac_law.specs.Building.{IsValid};
ghost use Rattle.evac_law.specs.Stands.{IsOrdered};
ghost use Rattle.plan_checker.specs.Parts.{IsFirstRate, RatesKept};

use evac_law::{Model, Move};

/// The first moment and arc, up to a last moment, at which more people enter the arc than its rate.
pub fn first_broken_rate(model: &Model, moves: &[Move], last: u16) -> Option<(u16, u32)>
    requires valid { IsValid model.now }
    requires ordered { IsOrdered (length model.now.arcs) model.now.horizon moves.now }
    requires last_in { last ≤ model.now.horizon }
    ensures { MatchOption result (RatesKept model.now moves.now last) (λ r. IsFirstRate model.now moves.now last r.0 r.1) }
{
    for step in moves {
        if step.moment <= last && step.people > model.rate(step.arc, step.moment) {
            return Some((step.moment, step.arc));
        }
    }
    None
}
