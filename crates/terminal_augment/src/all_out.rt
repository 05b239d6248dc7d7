//! The labels of a moment by which everybody is out: they are found without a flood.
ghost use Rattle.std.specs.Prelude.{◌≡◌, ◌<◌, ◌≤◌, ◌↔◌, IsTrue};
ghost use Rattle.residual_net.specs.Network.{IsWithinLimits};
ghost use Rattle.terminal_augment.specs.AllOut.{AreAllOut, AreLowered, IsWholeTable};

use evac_law::Labels;
use residual_net::Net;

/// Whether everybody is sent and arrives by a moment. Takes time in proportion to the horizon.
pub fn are_all_out(net: &Net, k: u16) -> bool
    requires within { IsWithinLimits net.now }
    requires moment { k ≤ net.now.site.shape.horizon }
    ensures { IsTrue result ↔ AreAllOut net.now k }
{
    let horizon = net.shape().horizon();
    net.is_all_sent() && net.arrived(k) == net.arrived(horizon)
}

// Gives the pairs of a node before a moment that moment as their label, but for those with an earlier one.
fn label_node(labels: &mut Labels, node: u32, k: u16)
    requires node { node < labels.old.nodes }
    requires moment { k ≤ labels.old.horizon }
    requires full { IsWholeTable labels.old }
    ensures { AreLowered k (λ n t. (n ≡ node) × (t < k)) labels.old labels.new }
{
    for moment in 0..k {
        if labels.get(node, moment) > k {
            labels.set(node, moment, k);
        }
    }
}

/// Gives all pairs before a moment that moment as their label, but for those with an earlier one.
pub fn label_all(labels: &mut Labels, k: u16)
    requires { k ≤ labels.old.horizon }
    ensures { AreLowered k (λ n t. (n < labels.old.nodes) × (t < k)) labels.old labels.new }
{
    let nodes = labels.nodes();
    for node in 0..nodes {
        label_node(labels, node, k);
    }
}
