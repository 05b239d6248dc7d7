//! One arrival moment, settled.
ghost use Rattle.std.specs.Prelude.{◌≡◌, ◌+◌, ◌*◌, ◌≤◌, IfOk, IfSome, IsFalse, IsTrue, length};
ghost use Rattle.evac_law.specs.Building.{IsValid};
ghost use Rattle.residual_net.specs.Network.{IsNet};
ghost use Rattle.residual_net.specs.OfModel.{site_of};
ghost use Rattle.terminal_augment.specs.Floods.{HaveSameLabels, IsFloodOver, IsFlooded};
ghost use Rattle.terminal_augment.specs.Searches.{AreBuffers, KeepsBuffers};
ghost use Rattle.terminal_augment.specs.Settled.{IsClosedBelow, IsCountedOn, IsLabelled, IsSearchOf, IsSettledBelow};

use crate::all_out::{are_all_out, label_all};
use crate::buffers::Buffers;
use crate::flood::flood;
use crate::hint::send_hinted;
use crate::path::send_found;
use crate::queue::Queue;
use crate::spot::Met;
use evac_law::{Labels, Steps};
use residual_net::{Net, PathStep};
use std::alloc::{AllocError, Global};
use std::marker::Model;
use std::sync::ledger::Ledger;

// Labels the pairs that reach an arrival by a moment; or, where somebody can still be sent there, answers with a step by which.
fn close(net: &Net, labels: &mut Labels, queue: &mut Queue<Met>, k: u16) -> Option<PathStep>
    requires net { IsNet net.now }
    requires settled { IsSettledBelow net.now labels.old k }
    requires room { net.now.site.shape.nodes * (net.now.site.shape.horizon + 1) ≤ queue.old.room }
    ensures flooded { IsFlooded net.now labels.old labels.new k queue.new.list result }
    ensures room { queue.new.room ≡ queue.old.room }
    ensures few { IfSome result (λ _. length queue.new.list ≤ queue.new.room) }
{
    if are_all_out(net, k) {
        label_all(labels, k);
        return None;
    }
    flood(net, labels, queue, k)
}

// Whether everybody is sent and nobody can arrive sooner, where that is worth a flood of its own.
fn is_over(net: &Net, labels: &mut Labels, buffers: &mut Buffers, k: u16) -> bool
    requires net { IsNet net.now }
    requires settled { IsSettledBelow net.now labels.old k }
    requires buffers { AreBuffers net.now.site.shape.nodes net.now.site.shape.horizon buffers.old }
    ensures over { IsTrue result → IsFloodOver net.now labels.old labels.new k }
    ensures alike { IsFalse result → HaveSameLabels labels.old labels.new }
    ensures buffers { KeepsBuffers buffers.old buffers.new }
{
    buffers.finder.floods_first(net, k) && close(net, labels, &mut buffers.queue, k).is_none()
}

// Settles a moment with the scratch of a search: along hinted paths, and where a flood still comes to somebody, along its path, until it
// comes to nobody.
fn settle_with<L: Ledger>(
    net: &mut Net,
    labels: &mut Labels,
    buffers: &mut Buffers,
    k: u16,
    steps: &mut Steps<L>,
) -> u32
    requires settled { IsSettledBelow net.old labels.old k }
    requires buffers { AreBuffers net.old.site.shape.nodes net.old.site.shape.horizon buffers.old }
    ensures counted { IsCountedOn net.old net.new k result steps.old steps.new }
    ensures labels { IsLabelled labels.old labels.new k }
    ensures closed { IsClosedBelow net.new labels.new (k + 1) }
    ensures buffers { AreBuffers net.new.site.shape.nodes net.new.site.shape.horizon buffers.new }
{
    let _ = net.shape();
    if is_over(net, labels, buffers, k) {
        return 0;
    }
    buffers.finder.begin(net, labels, k);
    let mut pushes = send_hinted(net, buffers, k, steps);
    while let Some(found) = close(net, labels, &mut buffers.queue, k) {
        send_found(net, buffers, found, k, steps);
        buffers.finder.miss(net);
        pushes += 1 + send_hinted(net, buffers, k, steps);
    }
    pushes
}

/// The scratch of searches, in memory that is taken once.
pub struct Search {
    buffers: Buffers,
}

// Written out, since a derived drop is laid out part by part in each function that lets one go.
impl Drop for Search {
    fn drop(self) {
        let Search { buffers: _ } = self;
    }
}

impl Model for Search {
    ghost use Rattle.terminal_augment.specs.Searches.{AreBuffers};
    ghost use Rattle.terminal_augment.specs.Settled.{SearchSize};

    ghost Value = { SearchSize };

    ghost view = { λ s. record { nodes = s.buffers.marks.nodes; horizon = s.buffers.marks.horizon } };

    ghost invariant = { λ s. AreBuffers s.buffers.marks.nodes s.buffers.marks.horizon s.buffers };
}

impl Search {
    /// Scratch for the nets of a model.
    pub fn new(alloc: Global, model: &evac_law::Model) -> Result<Search, AllocError>
        requires { IsValid model.now }
        ensures { IfOk result (IsSearchOf (site_of model.now)) }
    {
        let buffers = Buffers::new(alloc, model)?;
        Ok(Search { buffers })
    }

    /// Forgets what earlier moments told, as the flow or the limits of the net aren't what they were.
    pub fn renew(&mut self)
        ensures { self.new ≡ self.old }
    {
        self.buffers.finder.renew();
    }

    /// Recalls the flow that a net saved last: where an edit is undone, the net comes to it again.
    pub fn recall(&mut self, net: &Net)
        ensures { self.new ≡ self.old }
    {
        self.buffers.finder.recall(net);
    }
}

/// Sends as many people as can arrive by a moment without taking any from earlier arrivals, and then labels the pairs from which
/// people could still reach an arrival by then. The answer is the number of its pushes.
pub fn settle<L: Ledger>(
    net: &mut Net,
    labels: &mut Labels,
    search: &mut Search,
    k: u16,
    steps: &mut Steps<L>,
) -> u32
    requires settled { IsSettledBelow net.old labels.old k }
    requires search { IsSearchOf net.old.site search.old }
    ensures counted { IsCountedOn net.old net.new k result steps.old steps.new }
    ensures labels { IsLabelled labels.old labels.new k }
    ensures closed { IsClosedBelow net.new labels.new (k + 1) }
    ensures search { search.new ≡ search.old }
{
    settle_with(net, labels, &mut search.buffers, k, steps)
}
