//! The path by which a flood came to somebody.
ghost use Rattle.std.specs.Prelude.{◌≡◌, ◌<◌, ◌≤◌, ◌∷◌, length};
ghost use Rattle.std.specs.List.{All};
ghost use Rattle.residual_net.specs.Network.{IsWithinLimits, residual_room};
ghost use Rattle.residual_net.specs.Site.{IsPlace, stop_of};
ghost use Rattle.terminal_augment.specs.Chains.{AreMet, IsFound, is_at, steps_of, way_on};
ghost use Rattle.terminal_augment.specs.Searches.{KeepsBuffers};
ghost use Rattle.terminal_augment.specs.Settled.{IsCountedOn};

use crate::buffers::Buffers;
use crate::queue::Queue;
use crate::spot::{Met, Spot};
use evac_law::Steps;
use residual_net::{End, Net, Path, PathStep};
use std::sync::ledger::Ledger;

// Whether an end is a pair.
fn is_at(end: End, spot: Spot) -> bool
    ensures { result ≡ is_at end spot }
{
    match end {
        End::Pair { node, moment } => spot.node == node && spot.moment == moment,
        End::Source | End::Door(_) => false,
    }
}

// Fills a path with a step that leads to one of the pairs that were met, and with the steps by which that one was, and the one that
// this leads to, and so on to an arrival. Each was met before, so the pairs are gone through once, the last one first. The answer is
// the least room on the path.
fn lay(net: &Net, path: &mut Path, queue: &Queue<Met>, found: PathStep) -> u32
    requires within { IsWithinLimits net.now }
    requires space { length queue.now.list < path.old.room }
    requires place { IsPlace net.now.site found.place }
    requires some { 0 < residual_room net.now found }
    requires met { All (λ m. IsPlace net.now.site m.step.place × (0 < residual_room net.now m.step)) queue.now.list }
    ensures path { path.new ≡ record { steps = found ∷ steps_of (way_on net.now.site (stop_of net.now.site found) queue.now.list); room = path.old.room } }
    ensures some { 1 ≤ result }
    ensures room { All (λ y. result ≤ residual_room net.now y) path.new.steps }
{
    path.clear();
    path.add(found);
    let mut people = net.room(found);
    let mut end = net.stop(found);
    for number in 0..queue.len() {
        let Met { spot, step } = queue.from_back(number);
        if is_at(end, spot) {
            path.add(step);
            people = people.min(net.room(step));
            end = net.stop(step);
        }
    }
    people
}

/// Sends people by a step to one of the pairs that a flood met, and on from there to the moment.
pub fn send_found<L: Ledger>(
    net: &mut Net,
    buffers: &mut Buffers,
    found: PathStep,
    k: u16,
    steps: &mut Steps<L>,
)
    requires within { IsWithinLimits net.old }
    requires space { length buffers.old.queue.list < buffers.old.path.room }
    requires met { AreMet net.old k buffers.old.queue.list }
    requires found { IsFound net.old k buffers.old.queue.list found }
    ensures counted { IsCountedOn net.old net.new k 1 steps.old steps.new }
    ensures buffers { KeepsBuffers buffers.old buffers.new }
{
    let people = lay(net, &mut buffers.path, &buffers.queue, found);
    net.push(&buffers.path, people, steps);
}
