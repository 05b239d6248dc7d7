//! The numbers of what places lead to.
ghost use Rattle.std.specs.Prelude.{◌≡◌, ◌≤◌, ◌⊎◌, IsFalse};
ghost use Rattle.std.specs.List.{All, Any};
ghost use Rattle.residual_net.specs.Site.{IsPlace, is_barred};
ghost use Rattle.flow_repair.specs.Opened.{IsLabelsOf, head_number};

use evac_law::Labels;
use residual_net::{End, Net, PathStep, Place};

/// The label of the pair that a place leads to, or the moment of the arrival.
pub fn head_number(net: &Net, labels: &Labels, place: Place) -> u16
    requires place { IsPlace net.now.site place }
    requires open { IsFalse (is_barred net.now.site place) }
    requires labels { IsLabelsOf net.now.site labels.now }
    ensures { result ≡ head_number labels.now net.now.site place }
{
    match net.head(place) {
        End::Source => 0,
        End::Pair { node, moment } => labels.get(node, moment),
        End::Door(moment) => moment,
    }
}

/// The least of a number and the numbers of what the places of a path lead to.
pub fn least_on(net: &Net, labels: &Labels, path: &[PathStep], first: u16) -> u16
    requires places { All (λ x. IsPlace net.now.site x.place) path.now }
    requires open { All (λ x. IsFalse (is_barred net.now.site x.place)) path.now }
    requires labels { IsLabelsOf net.now.site labels.now }
    ensures first { result ≤ first }
    ensures all { All (λ x. result ≤ head_number labels.now net.now.site x.place) path.now }
    ensures one { (result ≡ first) ⊎ Any (λ x. result ≡ head_number labels.now net.now.site x.place) path.now }
{
    let mut least = first;
    for step in path {
        least = least.min(head_number(net, labels, step.place));
    }
    least
}
