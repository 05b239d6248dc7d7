//! The model of a building.
ghost use Rattle.std.specs.Prelude.{◌≡◌, ◌<◌, ◌≤◌, length, remove};
ghost use Rattle.std.specs.List.{list_any, sum_by};
ghost use Rattle.evac_law.specs.Building.{IsValid, arc_at, arc_row, entry, no_arc, node_at, node_row, people, rate};
ghost use Rattle.evac_law.specs.Edits.{windows_at, with_arc, with_node, with_start, with_windows};
ghost use Rattle.evac_law.specs.Limits.{arc_limit, node_limit, people_limit, window_limit};
ghost use Rattle.evac_law.specs.Windows.{overlaps, with_window};

use crate::entrant::{Entrant, entering, sum};
use crate::limits::WINDOW_LIMIT;
use crate::name::NodeName;
use crate::rows::Rows;
use crate::window::{Window, is_closed, overlap, place_for};
use arrayvec::ArrayVec;

/// A node: its name, the most people who may be in it, and the people in it at moment 0.
#[derive(Clone, Copy)]
pub struct NodeRow {
    pub name: NodeName,
    pub capacity: u32,
    pub start: u32,
    pub shut: bool,
}

/// An arc from one node to another, each named by its place. The traversal time is in periods, the rate in people per period,
/// and nobody may enter it in its windows.
#[derive(Drop)]
pub struct ArcRow {
    pub from: u32,
    pub to: u32,
    pub travel: u16,
    pub rate: u32,
    pub shut: bool,
    pub windows: ArrayVec<Window, WINDOW_LIMIT>,
}

impl NodeRow {
    /// A node that isn't shut.
    pub fn new(name: NodeName, capacity: u32, start: u32) -> NodeRow
        ensures { result ≡ node_row name capacity start }
    {
        NodeRow {
            name,
            capacity,
            start,
            shut: false,
        }
    }
}

impl ArcRow {
    /// An arc that isn't shut and has no window.
    pub fn new(from: u32, to: u32, travel: u16, rate: u32) -> ArcRow
        ensures { result ≡ arc_row from to travel rate }
    {
        ArcRow {
            from,
            to,
            travel,
            rate,
            shut: false,
            windows: ArrayVec::new(),
        }
    }

    // An arc that nobody enters.
    fn none() -> ArcRow
        ensures { result ≡ no_arc }
    {
        ArcRow {
            shut: true,
            ..ArcRow::new(0, 0, 0, 0)
        }
    }

    /// Another row with the same numbers, mark and windows. It takes no memory.
    pub fn copy(&self) -> ArcRow
        ensures { result ≡ self.now }
    {
        let mut windows = ArrayVec::new();
        for window in self.windows.as_slice() {
            windows.push(*window);
        }
        ArcRow {
            from: self.from,
            to: self.to,
            travel: self.travel,
            rate: self.rate,
            shut: self.shut,
            windows,
        }
    }

    /// Whether a window shares a moment with one of the arc's.
    pub fn overlaps(&self, window: Window) -> bool
        ensures { result ≡ list_any (λ v. overlaps v window) self.now.windows.items }
    {
        overlap(&self.windows, window)
    }

    /// Adds a window in the order of first moments.
    #[tactic(auto, unfolding(crate::specs::Limits::window_limit))]
    pub fn add_window(&mut self, window: Window)
        requires { length self.old.windows.items < window_limit }
        ensures { self.new ≡ record self.old { windows = record { items = with_window self.old.windows.items window } } }
    {
        let place = place_for(&self.windows, window);
        self.windows.insert(place, window);
    }

    /// Takes the window at a place away.
    pub(crate) fn remove_window(&mut self, place: usize)
        requires { place < length self.old.windows.items }
        ensures { self.new ≡ record self.old { windows = record { items = remove self.old.windows.items place } } }
    {
        self.windows.remove(place);
    }
}

/// A building: the seconds of a period, the last moment, its nodes and arcs in file order, and its entrants by node and moment.
#[derive(Drop)]
pub struct Model {
    pub seconds: u16,
    pub horizon: u16,
    pub nodes: Rows<NodeRow>,
    pub arcs: Rows<ArcRow>,
    pub entrants: Rows<Entrant>,
}

// The people in some nodes at moment 0.
#[tactic(auto, unfolding(crate::specs::Limits::people_limit))]
fn sum_starts(nodes: &[NodeRow]) -> u32
    requires { sum_by (λ n. n.start) nodes.now ≤ people_limit }
    ensures { result ≡ sum_by (λ n. n.start) nodes.now }
{
    let mut all = 0;
    for row in nodes {
        all += row.start;
    }
    all
}

impl Model {
    /// The number of the nodes.
    #[tactic(auto, unfolding(crate::specs::Limits::node_limit))]
    pub fn node_count(&self) -> u32
        requires { IsValid self.now }
        ensures count { result ≡ length self.now.nodes }
        ensures few { result ≤ node_limit }
    {
        self.nodes.len() as u32
    }

    /// The number of the arcs.
    #[tactic(auto, unfolding(crate::specs::Limits::arc_limit))]
    pub fn arc_count(&self) -> u32
        requires { IsValid self.now }
        ensures count { result ≡ length self.now.arcs }
        ensures few { result ≤ arc_limit }
    {
        self.arcs.len() as u32
    }

    /// The node at a place.
    pub fn node(&self, node: u32) -> NodeRow
        requires { node < length self.now.nodes }
        ensures { result ≡ node_at self.now node }
    {
        self.nodes[node as usize]
    }

    /// The arc at a place.
    pub fn arc(&self, arc: u32) -> &ArcRow
        requires { arc < length self.now.arcs }
        ensures { result.now ≡ arc_at self.now arc }
    {
        &self.arcs[arc as usize]
    }

    /// The people of the model.
    #[tactic(auto, unfolding(crate::specs::Building::people, crate::specs::Limits::people_limit))]
    pub fn people(&self) -> u32
        requires { IsValid self.now }
        ensures { result ≡ people self.now }
    {
        sum_starts(self.nodes.as_slice()) + sum(self.entrants.as_slice())
    }

    /// The most people who may enter an arc at a moment.
    pub fn rate(&self, arc: u32, moment: u16) -> u32
        requires valid { IsValid self.now }
        requires arc_in { arc < length self.now.arcs }
        requires moment_in { moment ≤ self.now.horizon }
        ensures { result ≡ rate self.now arc moment }
    {
        let row = self.arc(arc);
        if row.shut || self.node(row.to).shut || is_closed(&row.windows, moment) {
            0
        } else {
            row.rate
        }
    }

    /// The people who come into a node at a moment from nowhere.
    pub fn entry(&self, node: u32, moment: u16) -> u32
        requires valid { IsValid self.now }
        requires node_in { node < length self.now.nodes }
        requires moment_in { moment ≤ self.now.horizon }
        ensures { result ≡ entry self.now node moment }
    {
        if moment == 0 {
            self.node(node).start
        } else {
            entering(self.entrants.as_slice(), node, moment)
        }
    }

    // Takes an arc out, and leaves one that nobody enters in its place.
    fn take_arc(&mut self, arc: u32) -> ArcRow
        requires { arc < length self.old.arcs }
        ensures row { result ≡ arc_at self.old arc }
        ensures rest { self.new ≡ with_arc self.old arc no_arc }
    {
        self.arcs.replace(arc as usize, ArcRow::none())
    }

    /// Sets the people who are in a node at moment 0.
    pub(crate) fn set_start(&mut self, node: u32, start: u32)
        requires { node < length self.old.nodes }
        ensures { self.new ≡ with_start self.old node start }
    {
        let row = NodeRow {
            start,
            ..self.node(node)
        };
        self.nodes.put(node as usize, row);
    }

    /// Sets the most people who may be in a node.
    pub(crate) fn set_capacity(&mut self, node: u32, capacity: u32)
        requires { node < length self.old.nodes }
        ensures { self.new ≡ with_node self.old node (record (node_at self.old node) { capacity = capacity }) }
    {
        let row = NodeRow {
            capacity,
            ..self.node(node)
        };
        self.nodes.put(node as usize, row);
    }

    /// Shuts an exit, or opens it again.
    pub(crate) fn set_exit_shut(&mut self, node: u32, shut: bool)
        requires { node < length self.old.nodes }
        ensures { self.new ≡ with_node self.old node (record (node_at self.old node) { shut = shut }) }
    {
        let row = NodeRow {
            shut,
            ..self.node(node)
        };
        self.nodes.put(node as usize, row);
    }

    /// Shuts an arc, or opens it again.
    pub(crate) fn set_arc_shut(&mut self, arc: u32, shut: bool)
        requires { arc < length self.old.arcs }
        ensures { self.new ≡ with_arc self.old arc (record (arc_at self.old arc) { shut = shut }) }
    {
        let row = self.take_arc(arc);
        self.arcs.put(arc as usize, ArcRow { shut, ..row });
    }

    /// Sets the most people who may enter an arc at a moment.
    pub(crate) fn set_arc_rate(&mut self, arc: u32, rate: u32)
        requires { arc < length self.old.arcs }
        ensures { self.new ≡ with_arc self.old arc (record (arc_at self.old arc) { rate = rate }) }
    {
        let row = self.take_arc(arc);
        self.arcs.put(arc as usize, ArcRow { rate, ..row });
    }

    /// Adds a window to those of an arc.
    pub(crate) fn add_window(&mut self, arc: u32, window: Window)
        requires arc_in { arc < length self.old.arcs }
        requires room { length (windows_at self.old arc) < window_limit }
        ensures { self.new ≡ with_windows self.old arc (with_window (windows_at self.old arc) window) }
    {
        let mut row = self.take_arc(arc);
        row.add_window(window);
        self.arcs.put(arc as usize, row);
    }

    /// Takes the window at a place from those of an arc.
    pub(crate) fn remove_window(&mut self, arc: u32, place: usize)
        requires arc_in { arc < length self.old.arcs }
        requires place_in { place < length (windows_at self.old arc) }
        ensures { self.new ≡ with_windows self.old arc (remove (windows_at self.old arc) place) }
    {
        let mut row = self.take_arc(arc);
        row.remove_window(place);
        self.arcs.put(arc as usize, row);
    }
}
