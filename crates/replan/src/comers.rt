//! Who comes into the nodes of a building, once the moves before a moment are made.
ghost use Rattle.std.specs.Prelude.{◌≡◌, ◌<◌, ◌≤◌, ◌^◌, ◌++◌, IfOk, length};
ghost use Rattle.std.specs.List.{flat_map};
ghost use Rattle.evac_law.specs.Entrants.{table_entrant, table_entrants};
ghost use Rattle.evac_law.specs.Plans.{coming, leaving};
ghost use Rattle.evac_law.specs.Stands.{Stands};
ghost use Rattle.evac_law.specs.Sums.{moments_to};
ghost use Rattle.replan.specs.Committed.{moves_before};
ghost use Rattle.replan.specs.Rest.{rest_entry};
ghost use Rattle.replan.specs.Standing.{arriving_by};

use evac_law::{Entrant, Standing};
use plan_layout::Layout;
use std::alloc::{AllocError, Global};

// The people who enter an arc before a moment, and arrive at another.
fn arriving_by<F: Standing>(layout: &Layout, standing: &F, from: u16, arc: u32, moment: u16) -> u32
    requires stands { Stands layout.now (F.stand standing.now) }
    requires arc_in { arc < length layout.now.arcs }
    requires moment_in { moment ≤ layout.now.horizon }
    ensures { result ≡ arriving_by layout.now (F.stand standing.now).plan from moment arc }
{
    let travel = layout.model().arc(arc).travel;
    if travel <= moment && moment - travel < from {
        standing.moved(arc, moment - travel)
    } else {
        0
    }
}

/// The people who come to a node at a moment along arcs that they entered before another.
pub(crate) fn coming<F: Standing>(
    layout: &Layout,
    standing: &F,
    from: u16,
    node: u32,
    moment: u16,
) -> u64
    requires stands { Stands layout.now (F.stand standing.now) }
    requires node_in { node < length layout.now.nodes }
    requires moment_in { moment ≤ layout.now.horizon }
    ensures coming { result ≡ coming layout.now (moves_before from (F.stand standing.now).plan) node moment }
    ensures small { result < 2 ^ 43 }
{
    let mut people = 0;
    for arc in layout.arcs_to(node) {
        people += u64::from(arriving_by(layout, standing, from, *arc, moment));
    }
    people
}

// The people who leave a node at a moment.
fn leaving<F: Standing>(layout: &Layout, standing: &F, node: u32, moment: u16) -> u64
    requires stands { Stands layout.now (F.stand standing.now) }
    requires node_in { node < length layout.now.nodes }
    requires moment_in { moment ≤ layout.now.horizon }
    ensures leaving { result ≡ leaving layout.now (F.stand standing.now).plan node moment }
    ensures small { result < 2 ^ 43 }
{
    let mut people = 0;
    for arc in layout.arcs_from(node) {
        people += u64::from(standing.moved(*arc, moment));
    }
    people
}

// The people who come into a node at a moment, once the moves before another are made.
fn comes_at<F: Standing>(layout: &Layout, standing: &F, from: u16, node: u32, moment: u16) -> u64
    requires stands { Stands layout.now (F.stand standing.now) }
    requires node_in { node < length layout.now.nodes }
    requires moment_in { moment ≤ layout.now.horizon }
    ensures { result ≡ rest_entry layout.now (F.stand standing.now).plan from node moment }
{
    if layout.is_exit(node) {
        return 0;
    }
    if moment < from {
        return 0;
    }
    if moment == from {
        u64::from(standing.held(node, moment)) + leaving(layout, standing, node, moment)
    } else {
        u64::from(layout.model().entry(node, moment)) + coming(layout, standing, from, node, moment)
    }
}

// Adds those who come into a node at a moment, if there are any.
fn push_comer(comers: &mut Vec<Entrant>, comer: Entrant) -> Result<(), AllocError>
    requires { comer.moment ≡ 0 → comer.people ≡ 0 }
    ensures { IfOk result (λ _. comers.new.items ≡ comers.old.items ++ table_entrant (λ _ _. comer.people) comer.node comer.moment) }
{
    if comer.people > 0 {
        comers.push(comer)?;
    }
    Ok(())
}

// Adds those who come into a node, by moment.
#[tactic(auto, using(evac_law::proofs::PartLemmas::parts_more), unfolding(evac_law::specs::Limits::horizon_limit))]
fn push_comers<F: Standing>(
    comers: &mut Vec<Entrant>,
    layout: &Layout,
    standing: &F,
    from: u16,
    node: u32,
) -> Result<(), AllocError>
    requires stands { Stands layout.now (F.stand standing.now) }
    requires first { 1 ≤ from }
    requires in_horizon { from ≤ layout.now.horizon }
    requires node_in { node < length layout.now.nodes }
    ensures { IfOk result (λ _. comers.new.items
        ≡ comers.old.items ++ flat_map (table_entrant (rest_entry layout.now (F.stand standing.now).plan from) node) (moments_to layout.now.horizon)) }
{
    for moment in 0..layout.model().horizon + 1 {
        let people = comes_at(layout, standing, from, node, moment) as u32;
        let comer = Entrant {
            node,
            moment,
            people,
        };
        push_comer(comers, comer)?;
    }
    Ok(())
}

/// Those who come into the nodes once the moves before a moment are made, by node and then by moment.
#[tactic(auto, using(evac_law::proofs::PartLemmas::parts_more), unfolding(evac_law::specs::Entrants::table_entrants))]
pub(crate) fn comers<F: Standing>(
    alloc: Global,
    layout: &Layout,
    standing: &F,
    from: u16,
) -> Result<Vec<Entrant>, AllocError>
    requires stands { Stands layout.now (F.stand standing.now) }
    requires first { 1 ≤ from }
    requires in_horizon { from ≤ layout.now.horizon }
    ensures { IfOk result (λ r. r.items
        ≡ table_entrants (length layout.now.nodes) layout.now.horizon (rest_entry layout.now (F.stand standing.now).plan from)) }
{
    let mut comers = Vec::new(alloc);
    for node in 0..layout.model().node_count() {
        push_comers(&mut comers, layout, standing, from, node)?;
    }
    Ok(comers)
}
