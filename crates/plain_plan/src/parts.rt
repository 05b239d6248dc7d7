//! A model's parts by place, also past the end of its lists.
ghost use Rattle.std.specs.Prelude.{◌≡◌, ◌<◌, ◌^◌};
ghost use Rattle.std.specs.List.{sum_by};
ghost use Rattle.evac_law.specs.Building.{arrival, entry, head, node_at, rate, tail};
ghost use Rattle.evac_law.specs.Entrants.{entering};
ghost use Rattle.evac_law.specs.Windows.{is_closed_at};
ghost use Rattle.plain_plan.specs.Sizes.{IsSmall};

use evac_law::{Entrant, Kind, Model, NodeName, NodeRow, Window};

/// The node at a place; past the end a work place of nobody.
pub fn node_at(model: &Model, node: u32) -> NodeRow
    ensures { result ≡ node_at model.now node }
{
    if (node as usize) < model.nodes.len() {
        return model.nodes.at(node as usize);
    }
    let name = NodeName {
        kind: Kind::Work,
        number: 0,
        floor: 0,
    };
    NodeRow::new(name, 0, 0)
}

/// The node that an arc leaves; past the end the first.
pub fn tail(model: &Model, arc: u32) -> u32
    ensures { result ≡ tail model.now arc }
{
    if (arc as usize) < model.arcs.len() {
        model.arc(arc).from
    } else {
        0
    }
}

/// The node that an arc enters; past the end the first.
pub fn head(model: &Model, arc: u32) -> u32
    ensures { result ≡ head model.now arc }
{
    if (arc as usize) < model.arcs.len() {
        model.arc(arc).to
    } else {
        0
    }
}

/// The moment at which people arrive who enter an arc at a moment; past the end at once.
pub fn arrival(model: &Model, arc: u32, moment: u16) -> u64
    ensures { result ≡ arrival model.now arc moment }
{
    if (arc as usize) < model.arcs.len() {
        u64::from(moment) + u64::from(model.arc(arc).travel)
    } else {
        u64::from(moment)
    }
}

// Whether a moment lies in one of some windows.
fn is_closed(windows: &[Window], moment: u64) -> bool
    ensures { result ≡ is_closed_at windows.now moment }
{
    windows.iter().any(|w| u64::from(w.from) <= moment && moment < u64::from(w.until))
}

/// The most people who may enter an arc at a moment; past the end nobody.
pub fn rate(model: &Model, arc: u32, moment: u64) -> u32
    ensures { result ≡ rate model.now arc moment }
{
    if (arc as usize) >= model.arcs.len() {
        return 0;
    }
    let row = model.arc(arc);
    if row.shut || node_at(model, row.to).shut || is_closed(&row.windows, moment) {
        0
    } else {
        row.rate
    }
}

// The people of some entrants who come into a node at a moment.
#[tactic(auto, unfolding(evac_law::specs::Entrants::entering))]
fn entering(entrants: &[Entrant], node: u32, moment: u64) -> u32
    requires { sum_by (λ e. e.people) entrants.now < 2 ^ 32 }
    ensures { result ≡ entering entrants.now node moment }
{
    let mut people = 0;
    for entrant in entrants {
        if entrant.node == node && u64::from(entrant.moment) == moment {
            people += entrant.people;
        }
    }
    people
}

/// The people who come into a node at a moment from nowhere.
pub fn entry(model: &Model, node: u32, moment: u64) -> u32
    requires { IsSmall model.now }
    ensures { result ≡ entry model.now node moment }
{
    if moment == 0 {
        node_at(model, node).start
    } else {
        entering(model.entrants.as_slice(), node, moment)
    }
}
