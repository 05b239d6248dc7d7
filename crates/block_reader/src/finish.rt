//! The block of what was read.
ghost use Rattle.std.specs.Prelude.{◌≡◌, ◌<◌, ◌≤◌, ◌+◌, ◌*◌, ℕ, IfOk, length};
ghost use Rattle.std.specs.List.{All};
ghost use Rattle.evac_law.specs.Building.{IsValid};
ghost use Rattle.evac_law.specs.LabelTable.{label_at};
ghost use Rattle.block_reader.specs.DraftFacts.{IsDraft, IsRun};
ghost use Rattle.block_reader.specs.Drafts.{AreRunLabels, IsStated, filled, run_stop};

use crate::builder::BlockBuilder;
use crate::run::Run;
use certificate_text::Block;
use evac_law::{Labels, Model, Rows};
use std::alloc::{AllocError, Global};

// The moment at which the label of a run stops: that of the node's next run, or else `cleared`.
fn run_stop(runs: &[Run], place: usize, cleared: u16) -> u16
    requires { place < length runs.now }
    ensures { result ≡ run_stop runs.now place cleared }
{
    match runs.get(place + 1) {
        Some(next) if next.node == runs[place].node => next.moment,
        _ => cleared,
    }
}

// Sets the label of a run from its moment up to a stop.
fn fill(labels: &mut Labels, run: Run, stop: u16)
    requires full { length labels.old.list ≡ labels.old.nodes * (labels.old.horizon + 1) }
    requires node_in { run.node < labels.old.nodes }
    requires stop_in { stop ≤ labels.old.horizon }
    ensures nodes { labels.new.nodes ≡ labels.old.nodes }
    ensures horizon { labels.new.horizon ≡ labels.old.horizon }
    ensures full { length labels.new.list ≡ labels.new.nodes * (labels.new.horizon + 1) }
    ensures labels { (n t : ℕ) → t ≤ labels.old.horizon → label_at labels.new n t ≡ filled labels.old run stop n t }
{
    for moment in run.moment..stop {
        labels.set(run.node, moment, run.label);
    }
}

// The labels of runs, for the moments before `cleared`.
fn labels_of(alloc: Global, model: &Model, cleared: u16, runs: &[Run]) -> Result<Labels, AllocError>
    requires valid { IsValid model.now }
    requires cleared_in { cleared ≤ model.now.horizon }
    requires runs { All (IsRun model.now cleared) runs.now }
    ensures { IfOk result (λ labels. AreRunLabels model.now cleared runs.now labels) }
{
    let mut labels = Labels::new(alloc, model.node_count(), model.horizon)?;
    for place in 0..runs.len() {
        fill(&mut labels, runs[place], run_stop(runs, place, cleared));
    }
    Ok(labels)
}

/// The block of a builder that has all of it.
pub(crate) fn finish(
    alloc: Global,
    builder: BlockBuilder,
    model: &Model,
) -> Result<Block, AllocError>
    requires valid { IsValid model.now }
    requires draft { IsDraft model.now builder }
    ensures { IfOk result (λ block. IsStated model.now builder block) }
{
    let labels = labels_of(alloc, model, builder.cleared, &builder.runs)?;
    let BlockBuilder {
        stage: _,
        index,
        people,
        cleared,
        outs,
        runs: _,
        moves,
    } = builder;
    Ok(Block {
        index,
        people,
        cleared,
        outs: Rows::new(outs),
        labels,
        moves: Rows::new(moves),
    })
}
