//! All arrival moments, settled one after another.
ghost use Rattle.std.specs.Prelude.{◌≡◌, ◌≤◌, ◌+◌, ◌↔◌, IsTrue};
ghost use Rattle.evac_law.specs.declared.model.Model.{Model};
ghost use Rattle.evac_law.specs.Building.{IsValid};
ghost use Rattle.residual_net.specs.Network.{IsWithinLimits};
ghost use Rattle.residual_net.specs.OfModel.{IsNetOf};
ghost use Rattle.lex_flow.specs.Outcomes.{AreLabelsSettled, IsAnswer, IsNetSettled, IsOutcome, pushes_of};
ghost use Rattle.lex_flow.specs.Settling.{IsOver, IsSettleable, IsSettledThrough};

use crate::outcome::Outcome;
use evac_law::{Labels, Steps};
use residual_net::Net;
use std::sync::ledger::Ledger;
use terminal_augment::{Search, are_all_out, settle};

// Whether everybody is sent and arrives before a moment.
fn is_over(net: &Net, k: u16) -> bool
    requires within { IsWithinLimits net.now }
    requires moment { k ≤ net.now.site.shape.horizon }
    ensures { IsTrue result ↔ IsOver net.now k }
{
    k > 0 && are_all_out(net, k - 1)
}

// How far a net is settled, and after how many pushes.
#[derive(Clone, Copy)]
struct Settled {
    next: u16,
    pushes: u64,
}

// Unsets the labels that aren't below a moment, and settles moment after moment from that one on until everybody arrives before the
// next one, or to the horizon.
fn settle_on<L: Ledger>(
    net: &mut Net,
    labels: &mut Labels,
    search: &mut Search,
    from: u16,
    steps: &mut Steps<L>,
) -> Settled
    requires { IsSettleable net.old labels.old search.old from }
    ensures settled { IsSettledThrough net.old net.new labels.old labels.new from result.next result.pushes }
    ensures search { search.new ≡ search.old }
    ensures ticked { steps.new ≡ steps.old + result.pushes }
{
    let horizon = net.shape().horizon();
    search.renew();
    labels.unset_from(from);
    let mut pushes = 0u64;
    let mut next = from;
    while next <= horizon && !is_over(net, next) {
        pushes += settle(net, labels, search, next, steps) as u64;
        next += 1;
    }
    Settled { next, pushes }
}

// What a net comes to whose moments are settled.
fn outcome_of(net: &Net, pushes: u64) -> Outcome
    requires { IsWithinLimits net.now }
    ensures pushes { pushes_of result ≡ pushes }
    ensures outcome { IsOutcome net.now result }
{
    if net.is_all_sent() {
        let moment = net.last_arrival();
        Outcome::Cleared { moment, pushes }
    } else {
        let most = net.arrived(net.horizon());
        Outcome::Short { most, pushes }
    }
}

/// Unsets the labels that aren't below a moment, and settles moment after moment from that one on until everybody is sent and no
/// later arrival is left, or to the horizon.
///
/// Where everybody gets out, the plan of the net is the best at every period, and the labels prove it; otherwise they show how many can
/// get out by the horizon.
pub fn settle_all<L: Ledger>(
    net: &mut Net,
    labels: &mut Labels,
    search: &mut Search,
    from: u16,
    steps: &mut Steps<L>,
) -> Outcome
    requires { IsSettleable net.old labels.old search.old from }
    ensures net { IsNetSettled net.old net.new from result }
    ensures labels { AreLabelsSettled net.new labels.old labels.new from result }
    ensures answer { (m : Model) → IsValid m → IsNetOf m net.old → IsAnswer m net.new labels.new result }
    ensures search { search.new ≡ search.old }
    ensures ticked { steps.new ≡ steps.old + pushes_of result }
{
    let settled = settle_on(net, labels, search, from, steps);
    outcome_of(net, settled.pushes)
}
