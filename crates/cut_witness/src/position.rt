//! The places at which a cut may have an item, one after another.
ghost use Rattle.std.specs.Prelude.{◌≡◌, ◌+◌, ◌<◌, ◌≤◌, [], ◌∷◌, ◌++◌, length, IsFalse, IsTrue};
ghost use Rattle.std.specs.Option.{option_to_list};
ghost use Rattle.evac_law.specs.Certificates.{label_cut};
ghost use Rattle.evac_law.specs.Cuts.{Cut, arc_part, entry_part, hold_part};
ghost use Rattle.cut_witness.specs.Crossing.{IsPosition, left_at, next_part, part_at, rest_at, rows_of, width_of};

use crate::period_cut::PeriodCut;
use evac_law::CutItem;

/// The kind of the items that a walk is at.
#[derive(Clone, Copy)]
pub enum Part {
    Entries,
    Holds,
    Arcs,
}

impl Part {
    // The kind that comes after this one.
    fn next(self) -> Part
        ensures { result ≡ next_part self }
    {
        match self {
            Part::Entries => Part::Holds,
            Part::Holds | Part::Arcs => Part::Arcs,
        }
    }
}

/// Where a walk is: entries and holds have a row a node and a column a moment, arcs a row a moment and a column an arc.
#[derive(Clone, Copy)]
pub struct Position {
    pub part: Part,
    pub row: u32,
    pub column: u32,
}

impl PeriodCut<'_> {
    // The entry of a node at a moment, if it is an item.
    fn entry_item(&self, node: u32, moment: u16) -> Option<CutItem>
        requires node_in { node < length self.now.model.now.nodes }
        requires moment_in { moment ≤ self.now.k }
        ensures { option_to_list result ≡ entry_part self.now.model.now (label_cut self.now.model.now self.now.labels.now self.now.k) node moment }
    {
        let people = self.model.entry(node, moment);
        if self.has(node, moment) || people == 0 {
            None
        } else {
            Some(CutItem::Entry { node, people })
        }
    }

    // The hold of a node after a moment, if it is an item.
    fn hold_item(&self, node: u32, moment: u16) -> Option<CutItem>
        requires node_in { node < length self.now.model.now.nodes }
        requires moment_in { moment < self.now.k }
        ensures { option_to_list result ≡ hold_part self.now.model.now (label_cut self.now.model.now self.now.labels.now self.now.k) node moment }
    {
        if self.has(node, moment) && !self.has(node, moment + 1) {
            let capacity = self.model.node(node).capacity;
            Some(CutItem::Hold {
                node,
                moment,
                capacity,
            })
        } else {
            None
        }
    }

    // An arc at a moment, if it is an item.
    fn arc_item(&self, moment: u16, arc: u32) -> Option<CutItem>
        requires moment_in { moment ≤ self.now.k }
        requires arc_in { arc < length self.now.model.now.arcs }
        ensures { option_to_list result ≡ arc_part self.now.model.now (label_cut self.now.model.now self.now.labels.now self.now.k) self.now.k moment arc }
    {
        if self.leaves(moment, arc) {
            let rate = self.model.rate(arc, moment);
            Some(CutItem::Arc { arc, moment, rate })
        } else {
            None
        }
    }

    // How many rows and columns a part has.
    fn size_of(&self, part: Part) -> (u32, u32)
        ensures rows { result.0 ≡ rows_of self.now.model.now self.now.k part }
        ensures columns { result.1 ≡ width_of self.now.model.now self.now.k part }
    {
        let nodes = self.model.node_count();
        let arcs = self.model.arc_count();
        let moments = u32::from(self.k) + 1;
        match part {
            Part::Entries => (nodes, moments),
            Part::Holds => (nodes, u32::from(self.k)),
            Part::Arcs => (moments, arcs),
        }
    }

    // The item at a place, if there is one.
    fn item_at(&self, place: Position) -> Option<CutItem>
        requires row_in { place.row < rows_of self.now.model.now self.now.k place.part }
        requires column_in { place.column < width_of self.now.model.now self.now.k place.part }
        ensures { option_to_list result ≡ part_at self.now.model.now (label_cut self.now.model.now self.now.labels.now self.now.k) self.now.k place.part place.row place.column }
    {
        match place.part {
            Part::Entries => self.entry_item(place.row, place.column as u16),
            Part::Holds => self.hold_item(place.row, place.column as u16),
            Part::Arcs => self.arc_item(place.row as u16, place.column),
        }
    }

    /// Goes one step on.
    pub fn step(&self, place: &mut Position) -> Option<CutItem>
        requires position { IsPosition self.now.model.now self.now.k place.old }
        requires more { 0 < left_at self.now.model.now self.now.k place.old }
        ensures rest { let x = label_cut self.now.model.now self.now.labels.now self.now.k in
            rest_at self.now.model.now x self.now.k place.old ≡ option_to_list result ++ rest_at self.now.model.now x self.now.k place.new }
        ensures fewer { left_at self.now.model.now self.now.k place.new < left_at self.now.model.now self.now.k place.old }
        ensures position { IsPosition self.now.model.now self.now.k place.new }
    {
        let (rows, columns) = self.size_of(place.part);
        if place.row == rows {
            *place = Position {
                part: place.part.next(),
                row: 0,
                column: 0,
            };
            None
        } else if place.column == columns {
            place.row += 1;
            place.column = 0;
            None
        } else {
            let item = self.item_at(*place);
            place.column += 1;
            item
        }
    }

    /// Whether the walk has steps left.
    pub fn has_steps(&self, place: Position) -> bool
        requires position { IsPosition self.now.model.now self.now.k place }
        ensures more { IsTrue result → 0 < left_at self.now.model.now self.now.k place }
        ensures none { IsFalse result → (x : Cut) → rest_at self.now.model.now x self.now.k place ≡ [] }
    {
        match place.part {
            Part::Entries | Part::Holds => true,
            Part::Arcs => place.row < u32::from(self.k) + 1,
        }
    }
}
