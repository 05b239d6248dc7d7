//! A block from what its lines say, one by one.
ghost use Rattle.std.specs.Prelude.{◌≡◌, ◌<◌, ◌≤◌, ◌^◌, IfSome, IsTrue, length};
ghost use Rattle.std.specs.Option.{ForSome};
ghost use Rattle.evac_law.specs.Building.{IsValid};
ghost use Rattle.evac_law.specs.Limits.{node_limit};
ghost use Rattle.building_table.specs.Names.{NamesFit};
ghost use Rattle.block_reader.specs.DraftFacts.{IsDraft};
ghost use Rattle.block_reader.specs.Drafts.{behind_run, follows_move, follows_run, is_curve, is_full, is_move, is_run, last_of, arc_between, no_draft, node_of, only_exits, with_cleared, with_end, with_entry, with_index, with_move, with_out, with_people, with_run};
ghost use Rattle.block_reader.specs.Takings.{TakesLine};

use crate::fault::TakeFault;
use crate::run::Run;
use crate::stage::Stage;
use building_table::Names;
use certificate_text::Entry;
use evac_law::{Model, Move, NodeName};
use std::alloc::Global;

/// A block that is being read.
#[derive(Drop)]
pub(crate) struct BlockBuilder {
    pub stage: Stage,
    pub index: u32,
    pub people: u32,
    pub cleared: u16,
    pub outs: Vec<u32>,
    pub runs: Vec<Run>,
    pub moves: Vec<Move>,
}

impl std::marker::Model for BlockBuilder {
    ghost use Rattle.block_reader.specs.Drafts.{Draft};

    ghost Value = { Draft };

    ghost view = { λ b. record {
      stage = b.stage;
      index = b.index;
      people = b.people;
      cleared = b.cleared;
      outs = b.outs.items;
      runs = b.runs.items;
      moves = b.moves.items;
    } };
}

// The place of the node of a name.
fn node_of(model: &Model, names: &Names, name: NodeName) -> Option<u32>
    requires { NamesFit names.now model.now }
    ensures place { result ≡ node_of model.now name }
    ensures within { IfSome result (λ node. node < length model.now.nodes) }
{
    names.find_node(name)
}

// The place of the arc between the nodes of two names.
fn arc_between(model: &Model, names: &Names, from: NodeName, to: NodeName) -> Option<u32>
    requires { NamesFit names.now model.now }
    ensures { result ≡ arc_between model.now from to }
{
    let from = node_of(model, names, from)?;
    let to = node_of(model, names, to)?;
    names.find_arc(from, to)
}

// Whether the places from one on, up to another, are those of exits.
fn only_exits(model: &Model, from: u32, to: u32) -> bool
    requires { to ≤ length model.now.nodes }
    ensures { result ≡ only_exits model.now from to }
{
    for node in from..to {
        if !model.node(node).name.kind.is_exit() {
            return false;
        }
    }
    true
}

// Whether a run of a node may stand after the last one.
fn follows_run(model: &Model, last: Option<Run>, node: u32, moment: u16, label: u16) -> bool
    requires { node < length model.now.nodes }
    ensures { result ≡ follows_run model.now last node moment label }
{
    match last {
        None => moment == 0 && only_exits(model, 0, node),
        Some(run) if node == run.node => run.moment < moment && label != run.label,
        Some(run) => run.node < node && moment == 0 && only_exits(model, run.node + 1, node),
    }
}

// The place after the last node that has a run.
#[tactic(auto, unfolding(evac_law::specs::Limits::node_limit))]
fn behind_run(last: Option<Run>) -> u32
    requires { ForSome last (λ run. run.node < node_limit) }
    ensures { result ≡ behind_run last }
{
    match last {
        None => 0,
        Some(run) => run.node + 1,
    }
}

// Whether a moment and an arc stand after those of the last move.
fn follows_move(last: Option<Move>, moment: u16, arc: u32) -> bool
    ensures { result ≡ follows_move last moment arc }
{
    match last {
        None => true,
        Some(before) => { before.moment < moment || before.moment == moment && before.arc < arc }
    }
}

impl BlockBuilder {
    /// A block of which nothing was read.
    pub(crate) fn new(alloc: Global) -> BlockBuilder
        ensures { result ≡ no_draft }
    {
        BlockBuilder {
            stage: Stage::Index,
            index: 0,
            people: 0,
            cleared: 0,
            outs: Vec::new(alloc),
            runs: Vec::new(alloc),
            moves: Vec::new(alloc),
        }
    }

    fn take_index(&mut self, index: u32) -> Result<(), TakeFault>
        ensures { TakesLine result (with_index self.old index) self.new }
    {
        if !self.stage.is_index() {
            return Err(TakeFault::Bad);
        }
        self.stage = Stage::People;
        self.index = index;
        Ok(())
    }

    fn take_people(&mut self, people: u32) -> Result<(), TakeFault>
        ensures { TakesLine result (with_people self.old people) self.new }
    {
        if !self.stage.is_people() {
            return Err(TakeFault::Bad);
        }
        self.stage = Stage::Cleared;
        self.people = people;
        Ok(())
    }

    fn take_cleared(&mut self, model: &Model, moment: u32) -> Result<(), TakeFault>
        ensures { TakesLine result (with_cleared model.now self.old moment) self.new }
    {
        if !self.stage.is_cleared() || moment > u32::from(model.horizon) {
            return Err(TakeFault::Bad);
        }
        self.stage = Stage::Lists;
        self.cleared = moment as u16;
        Ok(())
    }

    fn take_out(&mut self, period: u32, people: u32) -> Result<(), TakeFault>
        ensures { TakesLine result (with_out self.old period people) self.new }
    {
        if !self.stage.is_lists()
            || period as usize != self.outs.len()
            || period > u32::from(self.cleared)
        {
            return Err(TakeFault::Bad);
        }
        match self.outs.push(people) {
            Ok(()) => Ok(()),
            Err(_) => Err(TakeFault::Memory),
        }
    }

    // Whether the people out by each period stand.
    fn is_curve(&self) -> bool
        ensures { result ≡ is_curve self.now }
    {
        self.stage.is_lists() && self.outs.len() == usize::from(self.cleared) + 1
    }

    // Whether a node may have a label from a moment on.
    fn is_run(&self, model: &Model, node: u32, moment: u32, label: u32) -> bool
        requires { node < length model.now.nodes }
        ensures value { result ≡ is_run model.now self.now node moment label }
        ensures short { IsTrue result → (moment < 2 ^ 16) × (label < 2 ^ 16) }
    {
        let cleared = u32::from(self.cleared);
        self.is_curve()
            && self.moves.is_empty()
            && !model.node(node).name.kind.is_exit()
            && moment < cleared
            && label <= cleared
            && follows_run(
                model,
                self.runs.last().copied(),
                node,
                moment as u16,
                label as u16,
            )
    }

    fn take_run(
        &mut self,
        model: &Model,
        node: u32,
        moment: u32,
        label: u32,
    ) -> Result<(), TakeFault>
        requires { node < length model.now.nodes }
        ensures { TakesLine result (with_run model.now self.old node moment label) self.new }
    {
        if !self.is_run(model, node, moment, label) {
            return Err(TakeFault::Bad);
        }
        let run = Run {
            node,
            moment: moment as u16,
            label: label as u16,
        };
        match self.runs.push(run) {
            Ok(()) => Ok(()),
            Err(_) => Err(TakeFault::Memory),
        }
    }

    // Whether all but the moves stands.
    fn is_full(&self, model: &Model) -> bool
        requires valid { IsValid model.now }
        requires draft { IsDraft model.now self.now }
        ensures { result ≡ is_full model.now self.now }
    {
        let behind = behind_run(self.runs.last().copied());
        self.is_curve() && (self.cleared == 0 || only_exits(model, behind, model.node_count()))
    }

    // Whether somebody may enter an arc at a moment.
    fn is_move(&self, model: &Model, moment: u32, arc: u32, people: u32) -> bool
        requires valid { IsValid model.now }
        requires draft { IsDraft model.now self.now }
        ensures value { result ≡ is_move model.now self.now moment arc people }
        ensures short { IsTrue result → moment < 2 ^ 16 }
    {
        (!self.moves.is_empty() || self.is_full(model))
            && moment <= u32::from(model.horizon)
            && 0 < people
            && follows_move(self.moves.last().copied(), moment as u16, arc)
    }

    fn take_move(
        &mut self,
        model: &Model,
        moment: u32,
        arc: u32,
        people: u32,
    ) -> Result<(), TakeFault>
        requires valid { IsValid model.now }
        requires draft { IsDraft model.now self.old }
        ensures { TakesLine result (with_move model.now self.old moment arc people) self.new }
    {
        if !self.is_move(model, moment, arc, people) {
            return Err(TakeFault::Bad);
        }
        let step = Move {
            moment: moment as u16,
            arc,
            people,
        };
        match self.moves.push(step) {
            Ok(()) => Ok(()),
            Err(_) => Err(TakeFault::Memory),
        }
    }

    // Whether the block may end.
    fn take_end(&self, model: &Model) -> Result<(), TakeFault>
        requires valid { IsValid model.now }
        requires draft { IsDraft model.now self.now }
        ensures { TakesLine result (with_end model.now self.now) self.now }
    {
        if self.is_full(model) {
            Ok(())
        } else {
            Err(TakeFault::Bad)
        }
    }

    /// Takes what a line says.
    #[tactic(auto, unfolding(crate::specs::Drafts::with_entry))]
    pub(crate) fn take(
        &mut self,
        model: &Model,
        names: &Names,
        entry: Entry,
    ) -> Result<(), TakeFault>
        requires valid { IsValid model.now }
        requires names { NamesFit names.now model.now }
        requires draft { IsDraft model.now self.old }
        ensures { TakesLine result (with_entry model.now self.old entry) self.new }
    {
        match entry {
            Entry::Blank => Ok(()),
            Entry::Index { index } => self.take_index(index),
            Entry::People { people } => self.take_people(people),
            Entry::Cleared { moment } => self.take_cleared(model, moment),
            Entry::Out { period, people } => self.take_out(period, people),
            Entry::Label {
                node,
                moment,
                label,
            } => match node_of(model, names, node) {
                Some(node) => self.take_run(model, node, moment, label),
                None => Err(TakeFault::Bad),
            },
            Entry::Move {
                moment,
                from,
                to,
                people,
            } => match arc_between(model, names, from, to) {
                Some(arc) => self.take_move(model, moment, arc, people),
                None => Err(TakeFault::Bad),
            },
            Entry::End => self.take_end(model),
        }
    }
}
