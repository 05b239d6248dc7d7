//! The least rate of an arc.
ghost use Rattle.std.specs.Prelude.{◌≡◌, ◌+◌, ◌<◌, ◌≤◌, ℕ, length};
ghost use Rattle.evac_law.specs.Building.{IsValid};
ghost use Rattle.evac_law.specs.Limits.{rate_limit};
ghost use Rattle.exit_study.specs.Rates.{IsLeast, IsSearch, TellsEnough};

use edit_session::Session;
use evac_law::limits::RATE_LIMIT;
use evac_law::{Edit, Standing, Steps};
use std::sync::ledger::Ledger;

/// The least rate of an arc at which everybody is out by a moment, or that no rate is enough.
#[derive(Clone, Copy)]
pub enum Least {
    Rate { rate: u32 },
    Never,
}

// Whether everybody is out by a moment with another rate of an arc.
fn try_rate<L: Ledger>(
    session: &mut Session,
    arc: u32,
    rate: u32,
    by: u16,
    steps: &mut Steps<L>,
) -> bool
    requires arc { arc < length session.old.state.model.arcs }
    requires rate { rate ≤ rate_limit }
    requires by { by ≤ session.old.state.model.horizon }
    ensures tried { TellsEnough session.old.state.model arc by rate result }
    ensures unchanged { session.new.state ≡ session.old.state }
    ensures counted { (n : ℕ) × (steps.new ≡ steps.old + n) }
{
    match session.trial(Edit::Rate { arc, rate }, steps) {
        Ok(moment) => moment <= by,
        Err(_) => false,
    }
}

// The rates that a search has before it: none below `low` is enough, and `high` is, where it is a rate.
struct RateRange {
    low: u32,
    high: u32,
}

// The range that the session's plan leaves of all rates, by the rate that the arc has.
#[tactic(auto, unfolding(evac_law::specs::Limits::rate_limit))]
fn first_range(session: &Session, arc: u32, by: u16) -> RateRange
    requires { arc < length session.now.state.model.arcs }
    ensures valid { IsValid session.now.state.model }
    ensures search { IsSearch session.now.state.model arc by result.low result.high }
{
    let rate = session.model().arc(arc).rate;
    if session.cleared() <= by {
        RateRange { low: 0, high: rate }
    } else {
        RateRange {
            low: rate + 1,
            high: RATE_LIMIT + 1,
        }
    }
}

// How many times a search doubles the least rate that is left, before it asks whether any rate is enough.
const DOUBLINGS: u32 = 2;

// The rate to try next. While none is known to be enough, two that aren't far above the rate of the arc come first, and then the greatest,
// which says whether any is enough. A search upwards takes at most twice the least rate that is left, as the answer is often near it.
#[tactic(auto, unfolding(evac_law::specs::Limits::rate_limit))]
fn next_rate(low: u32, high: u32, doublings: u32) -> u32
    requires some { low < high }
    requires in_range { high ≤ rate_limit + 1 }
    ensures least { low ≤ result }
    ensures most { result < high }
{
    let middle = (low + high) / 2;
    if high > RATE_LIMIT && doublings == 0 {
        RATE_LIMIT
    } else if low > 0 {
        middle.min(2 * low)
    } else {
        middle
    }
}

/// The least rate of an arc at which everybody is out of the session's model by a moment. The session stays as it was.
#[tactic(auto, unfolding(evac_law::specs::Limits::rate_limit))]
pub fn least_rate<L: Ledger>(
    session: &mut Session,
    arc: u32,
    by: u16,
    steps: &mut Steps<L>,
) -> Least
    requires arc { arc < length session.old.state.model.arcs }
    requires by { by ≤ session.old.state.model.horizon }
    ensures least { IsLeast session.old.state.model arc by result }
    ensures unchanged { session.new.state ≡ session.old.state }
    ensures counted { (n : ℕ) × (steps.new ≡ steps.old + n) }
{
    let RateRange { mut low, mut high } = first_range(session, arc, by);
    let mut doublings = DOUBLINGS;
    while low < high {
        let rate = next_rate(low, high, doublings);
        if try_rate(session, arc, rate, by, steps) {
            high = rate;
        } else {
            low = rate + 1;
        }
        doublings = doublings.saturating_sub(1);
    }
    if low > RATE_LIMIT {
        Least::Never
    } else {
        Least::Rate { rate: low }
    }
}
