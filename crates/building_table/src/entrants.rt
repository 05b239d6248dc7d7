//! The entrants of a building that is being described.
ghost use Rattle.std.specs.Prelude.{◌≡◌, [], false, IfOk, nat_lt, OnErr, OnOk};
ghost use Rattle.std.specs.BTreeMap.{keys};
ghost use Rattle.std.specs.List.{list_any};
ghost use Rattle.model_text.specs.Taken.{entrant_of, is_coming, with_entrant};

use evac_law::{Entrant, Rows};
use std::alloc::{AllocError, Global};
use std::collections::BTreeMap;
use std::marker::Model;

/// Entrants by node and moment. Contracts see them as their list, in that order.
#[derive(Drop)]
pub(crate) struct EntrantTable {
    people: BTreeMap<(u32, u16), u32>,
}

impl Model for EntrantTable {
    ghost use Rattle.std.specs.Prelude.{List, map};
    ghost use Rattle.evac_law.specs.declared.entrant.Entrant.{Entrant};
    ghost use Rattle.building_table.specs.EntrantRows.{entrant_row};

    ghost Value = { List Entrant };

    ghost view = { λ t. map entrant_row t.people.entries };
}

// Whether a key has a later moment.
fn has_later(people: &BTreeMap<(u32, u16), u32>, moment: u16) -> bool
    ensures { result ≡ list_any (λ key. nat_lt moment key.1) (keys people.now) }
{
    people.keys().any(|key| moment < key.1)
}

impl EntrantTable {
    /// No entrants.
    pub(crate) fn new(alloc: Global) -> EntrantTable
        ensures { result ≡ [] }
    {
        EntrantTable {
            people: BTreeMap::new(alloc),
        }
    }

    /// Whether there is one of a node and a moment.
    pub(crate) fn contains(&self, node: u32, moment: u16) -> bool
        ensures { result ≡ list_any (is_coming node moment) self.now }
    {
        self.people.contains_key(&(node, moment))
    }

    /// Puts one more in its place, where there is none of its node and moment.
    pub(crate) fn insert(&mut self, node: u32, moment: u16, people: u32) -> Result<(), AllocError>
        requires { list_any (is_coming node moment) self.old ≡ false }
        ensures made { OnOk result (self.new ≡ with_entrant self.old (entrant_of node moment people)) }
        ensures same { OnErr result (self.new ≡ self.old) }
    {
        match self.people.insert((node, moment), people) {
            Ok(_) => Ok(()),
            Err(_) => Err(AllocError),
        }
    }

    /// Whether one comes after a moment.
    pub(crate) fn is_late(&self, moment: u16) -> bool
        ensures { result ≡ list_any (λ e. nat_lt moment e.moment) self.now }
    {
        has_later(&self.people, moment)
    }

    /// The rows of all of them.
    pub(crate) fn rows(&self, alloc: Global) -> Result<Rows<Entrant>, AllocError>
        ensures { IfOk result (λ rows. rows ≡ self.now) }
    {
        let mut rows = Vec::new(alloc);
        for (key, people) in &self.people {
            rows.push(Entrant {
                node: key.0,
                moment: key.1,
                people: *people,
            })?;
        }
        Ok(Rows::new(rows))
    }
}
