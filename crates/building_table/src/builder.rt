//! A building from its parts, one by one.
ghost use Rattle.std.specs.Prelude.{◌≡◌, ◌≤◌, ◌<◌, ◌+◌, ◌*◌, ◌∷◌, ◌&&◌, ◌==◌, List, [], length, true, false, nat_le, nat_lt, MatchOption, ◌++◌, IfErr, IfOk, OnErr, OnOk, Some, None};
ghost use Rattle.std.specs.List.{list_any, position};
ghost use Rattle.evac_law.specs.Building.{IsValid};
ghost use Rattle.evac_law.specs.Limits.{arc_limit, cell_limit, floor_limit, node_limit, people_limit, window_limit};
ghost use Rattle.evac_law.specs.Names.{is_exit};
ghost use Rattle.evac_law.specs.Windows.{overlaps};
ghost use Rattle.building_table.specs.Built.{Built, IsBuilding, build_code, built_of, end_code};
ghost use Rattle.building_table.specs.Taking.{TakesPart, end_checks, holds_node, arc_checks, close_checks, entrant_checks, exit_checks, floor_checks, holds_floor, horizon_checks, people_held, period_checks, room_checks, title_checks, window_checks, adding_arc, adding_entrant, adding_node, adding_window, with_floor};
ghost use Rattle.model_text.specs.Grammar.{SaidPart};
ghost use Rattle.model_text.specs.Reads.{said_part};
ghost use Rattle.model_text.specs.Taken.{AreTaken, closing, description_of, end_fault, entrant_of, first_code, is_coming, joins, place_of_arc, place_of_node, same_name, part_fault, arc_windows, with_entrant};

use crate::building::Building;
use crate::entrants::EntrantTable;
use crate::faults::{BuildFault, EndFault};
use crate::name_index::NameIndex;
use crate::names::Names;
use evac_law::limits::{
    ARC_LIMIT, CELL_LIMIT, FLOOR_LIMIT, NODE_LIMIT, PEOPLE_LIMIT, WINDOW_LIMIT,
};
use evac_law::{ArcRow, Entrant, NodeName, NodeRow, Rows, Window};
use model_text::Part;
use std::alloc::{AllocError, Global};
use std::marker::Model;

/// A building that is being described.
#[derive(Drop)]
pub struct Builder {
    seconds: Option<u16>,
    horizon: Option<u16>,
    title: Option<Vec<u8>>,
    floors: Vec<u16>,
    texts: Vec<Vec<u8>>,
    nodes: Vec<NodeRow>,
    arcs: Vec<ArcRow>,
    entrants: EntrantTable,
    index: NameIndex,
    people: u32,
}

impl Model for Builder {
    ghost use Rattle.std.specs.Prelude.{length, map};
    ghost use Rattle.std.specs.Option.{option_map};
    ghost use Rattle.building_table.specs.Built.{Built};
    ghost use Rattle.building_table.specs.Taking.{IsBuilder};

    ghost Value = { Built };

    ghost view = { λ b. record {
      seconds = b.seconds;
      horizon = b.horizon;
      title = option_map (λ t. t.items) b.title;
      floors = b.floors.items;
      texts = map (λ t. t.items) b.texts.items;
      nodes = b.nodes.items;
      arcs = b.arcs.items;
      entrants = b.entrants;
    } };

    ghost invariant = { λ b. IsBuilder b.floors.items (length b.texts.items) b.nodes.items b.arcs.items b.entrants b.index b.people };
}

// Whether there is an exit.
fn has_exit_in(nodes: &[NodeRow]) -> bool
    ensures { result ≡ list_any (λ n. is_exit n.name.kind) nodes.now }
{
    nodes.iter().any(|n| n.name.kind.is_exit())
}

// Whether two names are the same.
fn is_same(a: NodeName, b: NodeName) -> bool
    ensures { result ≡ same_name a b }
{
    a == b
}

impl Builder {
    /// A builder that has taken nothing.
    pub fn new(alloc: Global) -> Result<Builder, AllocError>
        ensures { IfOk result (λ builder. builder ≡ built_of []) }
    {
        Ok(Builder {
            seconds: None,
            horizon: None,
            title: None,
            floors: Vec::new(alloc),
            texts: Vec::new(alloc),
            nodes: Vec::new(alloc),
            arcs: Vec::new(alloc),
            entrants: EntrantTable::new(alloc),
            index: NameIndex::new(alloc),
            people: 0,
        })
    }

    fn take_title(&mut self, alloc: Global, text: &[u8]) -> Result<(), BuildFault>
        ensures { TakesPart result (title_checks self.old) self.old self.new (record self.old { title = Some text.now }) }
    {
        if self.title.is_some() {
            return Err(BuildFault::RepeatedSetting);
        }
        let Ok(text) = Vec::from_slice(alloc, text) else {
            return Err(BuildFault::Memory);
        };
        self.title = Some(text);
        Ok(())
    }

    fn take_period(&mut self, seconds: u16) -> Result<(), BuildFault>
        ensures { TakesPart result (period_checks self.old) self.old self.new (record self.old { seconds = Some seconds }) }
    {
        if self.seconds.is_some() {
            return Err(BuildFault::RepeatedSetting);
        }
        self.seconds = Some(seconds);
        Ok(())
    }

    fn take_horizon(&mut self, moments: u16) -> Result<(), BuildFault>
        ensures { TakesPart result (horizon_checks self.old) self.old self.new (record self.old { horizon = Some moments }) }
    {
        if self.horizon.is_some() {
            return Err(BuildFault::RepeatedSetting);
        }
        self.horizon = Some(moments);
        Ok(())
    }

    // Puts one more floor after the others.
    fn push_floor(&mut self, floor: u16, text: Vec<u8>) -> Result<(), BuildFault>
        requires { length self.old.floors < floor_limit }
        ensures made { OnOk result (self.new ≡ with_floor self.old floor text.items) }
        ensures memory { IfErr result (λ f. f ≡ BuildFault.Memory) }
        ensures same { OnErr result (self.new ≡ self.old) }
    {
        let Ok(()) = self.floors.push(floor) else {
            return Err(BuildFault::Memory);
        };
        let Ok(()) = self.texts.push(text) else {
            self.floors.pop();
            return Err(BuildFault::Memory);
        };
        Ok(())
    }

    fn has_floor(&self, floor: u16) -> bool
        ensures { result ≡ holds_floor self.now floor }
    {
        self.floors.contains(&floor)
    }

    fn node_place(&self, name: NodeName) -> Option<u32>
        ensures { MatchOption result (holds_node self.now name ≡ false) (λ place. (holds_node self.now name ≡ true) × (place ≡ place_of_node self.now.nodes name)) }
    {
        self.index.find_node(name)
    }

    fn has_node(&self, name: NodeName) -> bool
        ensures { result ≡ holds_node self.now name }
    {
        self.node_place(name).is_some()
    }

    fn arc_place(&self, from: u32, to: u32) -> Option<u32>
        ensures { MatchOption result (list_any (joins from to) self.now.arcs ≡ false) (λ place. (list_any (joins from to) self.now.arcs ≡ true) × (place ≡ place_of_arc self.now.arcs from to)) }
    {
        self.index.find_ends(from, to)
    }

    fn has_arc(&self, from: u32, to: u32) -> bool
        ensures { result ≡ list_any (joins from to) self.now.arcs }
    {
        self.arc_place(from, to).is_some()
    }

    #[tactic(auto, unfolding(evac_law::specs::Limits::floor_limit))]
    fn is_full_of_floors(&self) -> bool
        ensures { result ≡ nat_le floor_limit (length self.now.floors) }
    {
        self.floors.len() >= FLOOR_LIMIT
    }

    #[tactic(auto, unfolding(evac_law::specs::Limits::node_limit))]
    fn is_full_of_nodes(&self) -> bool
        ensures { result ≡ nat_le node_limit (length self.now.nodes) }
    {
        self.nodes.len() >= NODE_LIMIT
    }

    #[tactic(auto, unfolding(evac_law::specs::Limits::arc_limit))]
    fn is_full_of_arcs(&self) -> bool
        ensures { result ≡ nat_le arc_limit (length self.now.arcs) }
    {
        self.arcs.len() >= ARC_LIMIT
    }

    #[tactic(auto, unfolding(evac_law::specs::Limits::people_limit))]
    fn is_crowded(&self, more: u32) -> bool
        ensures { result ≡ nat_lt people_limit (people_held self.now.nodes self.now.entrants + more) }
    {
        u64::from(self.people) + u64::from(more) > u64::from(PEOPLE_LIMIT)
    }

    fn has_exit(&self) -> bool
        ensures { result ≡ list_any (λ n. is_exit n.name.kind) self.now.nodes }
    {
        has_exit_in(&self.nodes)
    }

    // The seconds and the horizon, where the model may end.
    fn settings(&self) -> Result<(u16, u16), EndFault>
        ensures seconds { IfOk result (λ s. self.now.seconds ≡ Some s.0) }
        ensures horizon { IfOk result (λ s. self.now.horizon ≡ Some s.1) }
        ensures right { OnOk result (first_code (end_checks self.now) ≡ None) }
        ensures fault { IfErr result (λ fault. first_code (end_checks self.now) ≡ end_code fault) }
    {
        let (Some(seconds), Some(horizon)) = (self.seconds, self.horizon) else {
            return Err(EndFault::MissingSetting);
        };
        if !self.has_exit() {
            return Err(EndFault::NoExit);
        }
        if self.is_too_large(horizon) {
            return Err(EndFault::TooLarge);
        }
        if self.entrants.is_late(horizon) {
            return Err(EndFault::EntrantLate);
        }
        Ok((seconds, horizon))
    }

    // Whether there are too many cells, with this last moment.
    #[tactic(auto, unfolding(evac_law::specs::Limits::cell_limit, evac_law::specs::Limits::node_limit, evac_law::specs::Limits::arc_limit))]
    fn is_too_large(&self, horizon: u16) -> bool
        ensures { result ≡ nat_lt cell_limit ((length self.now.nodes + length self.now.arcs) * (horizon + 1)) }
    {
        (self.nodes.len() + self.arcs.len()) * (usize::from(horizon) + 1) > CELL_LIMIT as usize
    }

    fn take_floor(&mut self, alloc: Global, floor: u16, text: &[u8]) -> Result<(), BuildFault>
        ensures { TakesPart result (floor_checks self.old floor) self.old self.new (with_floor self.old floor text.now) }
    {
        if self.has_floor(floor) {
            return Err(BuildFault::RepeatedSetting);
        }
        if self.is_full_of_floors() {
            return Err(BuildFault::TooMany);
        }
        let Ok(text) = Vec::from_slice(alloc, text) else {
            return Err(BuildFault::Memory);
        };
        self.push_floor(floor, text)
    }

    // Puts one more node after the others.
    #[tactic(auto, unfolding(evac_law::specs::Limits::people_limit))]
    fn push_node(&mut self, name: NodeName, capacity: u32, start: u32) -> Result<(), BuildFault>
        requires new { holds_node self.old name ≡ false }
        requires few { length self.old.nodes < node_limit }
        requires fits { 0 < start → people_held self.old.nodes self.old.entrants + start ≤ people_limit }
        ensures made { OnOk result (self.new ≡ adding_node self.old name capacity start) }
        ensures memory { IfErr result (λ f. f ≡ BuildFault.Memory) }
        ensures same { OnErr result (self.new ≡ self.old) }
    {
        let row = NodeRow::new(name, capacity, start);
        let Ok(()) = self.nodes.push(row) else {
            return Err(BuildFault::Memory);
        };
        let Ok(()) = self.index.insert_node(name) else {
            self.nodes.pop();
            return Err(BuildFault::Memory);
        };
        self.people += start;
        Ok(())
    }

    fn take_room(&mut self, name: NodeName, capacity: u32, start: u32) -> Result<(), BuildFault>
        ensures { TakesPart result (room_checks self.old name capacity start) self.old self.new (adding_node self.old name capacity start) }
    {
        if !self.has_floor(name.floor) {
            return Err(BuildFault::UnknownFloor);
        }
        if self.has_node(name) {
            return Err(BuildFault::RepeatedNode);
        }
        if start > capacity {
            return Err(BuildFault::OverFull);
        }
        if self.is_full_of_nodes() || self.is_crowded(start) {
            return Err(BuildFault::TooMany);
        }
        self.push_node(name, capacity, start)
    }

    fn take_exit(&mut self, name: NodeName) -> Result<(), BuildFault>
        ensures { TakesPart result (exit_checks self.old name) self.old self.new (adding_node self.old name 0 0) }
    {
        if !self.has_floor(name.floor) {
            return Err(BuildFault::UnknownFloor);
        }
        if self.has_node(name) {
            return Err(BuildFault::RepeatedNode);
        }
        if self.is_full_of_nodes() {
            return Err(BuildFault::TooMany);
        }
        self.push_node(name, 0, 0)
    }

    // Puts one more arc after the others.
    fn push_arc(&mut self, row: ArcRow) -> Result<(), BuildFault>
        requires new { list_any (joins row.from row.to) self.old.arcs ≡ false }
        requires few { length self.old.arcs < arc_limit }
        ensures made { OnOk result (self.new ≡ record self.old { arcs = self.old.arcs ++ (row ∷ []) }) }
        ensures memory { IfErr result (λ f. f ≡ BuildFault.Memory) }
        ensures same { OnErr result (self.new ≡ self.old) }
    {
        let (from, to) = (row.from, row.to);
        let Ok(()) = self.arcs.push(row) else {
            return Err(BuildFault::Memory);
        };
        let Ok(()) = self.index.insert_ends(from, to) else {
            self.arcs.pop();
            return Err(BuildFault::Memory);
        };
        Ok(())
    }

    fn take_arc(
        &mut self,
        start: NodeName,
        finish: NodeName,
        travel: u16,
        rate: u32,
    ) -> Result<(), BuildFault>
        ensures { TakesPart result (arc_checks self.old start finish) self.old self.new (adding_arc self.old start finish travel rate) }
    {
        let Some(from) = self.node_place(start) else {
            return Err(BuildFault::UnknownNode);
        };
        let Some(to) = self.node_place(finish) else {
            return Err(BuildFault::UnknownNode);
        };
        if is_same(start, finish) {
            return Err(BuildFault::SelfArc);
        }
        if start.kind.is_exit() {
            return Err(BuildFault::FromExit);
        }
        if self.has_arc(from, to) {
            return Err(BuildFault::RepeatedArc);
        }
        if self.is_full_of_arcs() {
            return Err(BuildFault::TooMany);
        }
        self.push_arc(ArcRow::new(from, to, travel, rate))
    }

    // Gives an arc one more window, where there is room.
    fn add_window(&mut self, arc: u32, window: Window)
        requires arc_in { arc < length self.old.arcs }
        requires few { length (arc_windows self.old.arcs arc) < window_limit }
        ensures { self.new ≡ record self.old { arcs = closing self.old.arcs arc window } }
    {
        self.arcs[arc as usize].add_window(window);
    }

    // Closes an arc in a window that begins before it ends.
    #[tactic(auto, unfolding(evac_law::specs::Limits::window_limit))]
    fn close(&mut self, arc: u32, window: Window) -> Result<(), BuildFault>
        requires { arc < length self.old.arcs }
        ensures { TakesPart result (close_checks (arc_windows self.old.arcs arc) window) self.old self.new (record self.old { arcs = closing self.old.arcs arc window }) }
    {
        let row = &self.arcs[arc as usize];
        if row.overlaps(window) {
            return Err(BuildFault::WindowOverlap);
        }
        if row.windows.len() >= WINDOW_LIMIT {
            return Err(BuildFault::TooManyWindows);
        }
        self.add_window(arc, window);
        Ok(())
    }

    fn take_window(
        &mut self,
        start: NodeName,
        finish: NodeName,
        first: u16,
        until: u16,
    ) -> Result<(), BuildFault>
        ensures { TakesPart result (window_checks self.old start finish first until) self.old self.new (adding_window self.old start finish first until) }
    {
        let Some(from) = self.node_place(start) else {
            return Err(BuildFault::UnknownNode);
        };
        let Some(to) = self.node_place(finish) else {
            return Err(BuildFault::UnknownNode);
        };
        let Some(arc) = self.arc_place(from, to) else {
            return Err(BuildFault::NoArc);
        };
        if until <= first {
            return Err(BuildFault::BadWindow);
        }
        self.close(arc, Window { from: first, until })
    }

    // Puts one more entrant among the others.
    #[tactic(auto, unfolding(evac_law::specs::Limits::people_limit))]
    fn push_entrant(&mut self, node: u32, moment: u16, people: u32) -> Result<(), BuildFault>
        requires new { list_any (is_coming node moment) self.old.entrants ≡ false }
        requires fits { people_held self.old.nodes self.old.entrants + people ≤ people_limit }
        ensures made { OnOk result (self.new ≡ record self.old { entrants = with_entrant self.old.entrants (entrant_of node moment people) }) }
        ensures memory { IfErr result (λ f. f ≡ BuildFault.Memory) }
        ensures same { OnErr result (self.new ≡ self.old) }
    {
        let Ok(()) = self.entrants.insert(node, moment, people) else {
            return Err(BuildFault::Memory);
        };
        self.people += people;
        Ok(())
    }

    fn take_entrant(&mut self, name: NodeName, moment: u16, people: u32) -> Result<(), BuildFault>
        ensures { TakesPart result (entrant_checks self.old name moment people) self.old self.new (adding_entrant self.old name moment people) }
    {
        let Some(node) = self.node_place(name) else {
            return Err(BuildFault::UnknownNode);
        };
        if name.kind.is_exit() {
            return Err(BuildFault::ExitNamed);
        }
        if self.entrants.contains(node, moment) {
            return Err(BuildFault::RepeatedEntrant);
        }
        if self.is_crowded(people) {
            return Err(BuildFault::TooMany);
        }
        self.push_entrant(node, moment, people)
    }

    /// Takes one more part.
    pub fn take(&mut self, alloc: Global, part: Part<'_>) -> Result<(), BuildFault>
        ensures taken { OnOk result ((before : List SaidPart) → self.old ≡ built_of before → (part_fault before (said_part part.entry) ≡ None) × (self.new ≡ built_of (said_part part.entry ∷ before))) }
        ensures fault { IfErr result (λ fault. (before : List SaidPart) → self.old ≡ built_of before → part_fault before (said_part part.entry) ≡ build_code fault) }
        ensures unchanged { OnErr result (self.new ≡ self.old) }
    {
        match part {
            Part::Title { text } => self.take_title(alloc, text),
            Part::Period { seconds } => self.take_period(seconds),
            Part::Horizon { moments } => self.take_horizon(moments),
            Part::Floor { floor, text } => self.take_floor(alloc, floor, text),
            Part::Node {
                name,
                capacity,
                start,
            } => self.take_room(name, capacity, start),
            Part::Exit { name } => self.take_exit(name),
            Part::Arc {
                from,
                to,
                travel,
                rate,
            } => self.take_arc(from, to, travel, rate),
            Part::Window {
                from,
                to,
                first,
                until,
            } => self.take_window(from, to, first, until),
            Part::Entrant {
                name,
                moment,
                people,
            } => self.take_entrant(name, moment, people),
        }
    }

    // The settings and the entrants of a building that may end.
    fn ended(&self, alloc: Global) -> Result<(u16, u16, Rows<Entrant>), EndFault>
        ensures seconds { IfOk result (λ s. self.now.seconds ≡ Some s.0) }
        ensures horizon { IfOk result (λ s. self.now.horizon ≡ Some s.1) }
        ensures entrants { IfOk result (λ s. s.2 ≡ self.now.entrants) }
        ensures right { OnOk result (first_code (end_checks self.now) ≡ None) }
        ensures fault { IfErr result (λ fault. first_code (end_checks self.now) ≡ end_code fault) }
    {
        let (seconds, horizon) = self.settings()?;
        match self.entrants.rows(alloc) {
            Ok(entrants) => Ok((seconds, horizon, entrants)),
            Err(_) => Err(EndFault::Memory),
        }
    }

    // The building with its settings and entrants.
    fn assembled(self, seconds: u16, horizon: u16, entrants: Rows<Entrant>) -> Building
        requires seconds { self.seconds ≡ Some seconds }
        requires horizon { self.horizon ≡ Some horizon }
        requires entrants { entrants ≡ self.entrants }
        requires right { first_code (end_checks self) ≡ None }
        ensures building { (taken : List SaidPart) → AreTaken taken → self ≡ built_of taken → (end_fault taken ≡ None) × IsBuilding result (description_of taken) }
        ensures valid { (taken : List SaidPart) → AreTaken taken → self ≡ built_of taken → IsValid result.model }
    {
        let Builder {
            title,
            floors,
            texts,
            nodes,
            arcs,
            index,
            ..
        } = self;
        let names = Names::from_index(index, floors, texts, title);
        let model = evac_law::Model {
            seconds,
            horizon,
            nodes: Rows::new(nodes),
            arcs: Rows::new(arcs),
            entrants,
        };
        Building { model, names }
    }

    /// The building of the parts that were taken.
    pub fn finish(self, alloc: Global) -> Result<Building, EndFault>
        ensures building { IfOk result (λ b. (taken : List SaidPart) → AreTaken taken → self ≡ built_of taken → (end_fault taken ≡ None) × IsBuilding b (description_of taken)) }
        ensures valid { IfOk result (λ b. (taken : List SaidPart) → AreTaken taken → self ≡ built_of taken → IsValid b.model) }
        ensures fault { IfErr result (λ fault. (taken : List SaidPart) → self ≡ built_of taken → end_fault taken ≡ end_code fault) }
    {
        match self.ended(alloc) {
            Ok((seconds, horizon, entrants)) => Ok(self.assembled(seconds, horizon, entrants)),
            Err(fault) => Err(fault),
        }
    }
}
