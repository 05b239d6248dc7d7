//! A table by row and moment.
ghost use Rattle.std.specs.Prelude.{◌≡◌, ℕ, ◌<◌, ◌≤◌, IfOk};
ghost use Rattle.tables.specs.Tables.{IsPut, item_at};

use std::alloc::{AllocError, Global};
use std::marker::Model;

/// An item for each row and each moment up to the last.
#[derive(Drop)]
pub struct Table<T> {
    rows: u32,
    last: u16,
    items: Vec<T>,
}

impl<T> Model for Table<T> {
    ghost use Rattle.tables.specs.Tables.{IsFull, TableView};

    ghost Value = { TableView T };

    ghost view = { λ t. record { rows = t.rows; last = t.last; items = t.items.items } };

    ghost invariant = { λ t. IsFull (record { rows = t.rows; last = t.last; items = t.items.items }) };
}

impl<T: Copy + Drop> Table<T> {
    /// The same item for each row and moment.
    pub fn new(alloc: Global, item: T, rows: u32, last: u16) -> Result<Table<T>, AllocError>
        ensures rows { IfOk result (λ c. c.rows ≡ rows) }
        ensures last { IfOk result (λ c. c.last ≡ last) }
        ensures items { IfOk result (λ c. (n t : ℕ) → item_at item c n t ≡ item) }
    {
        let places = rows as usize * (last as usize + 1);
        let mut items = Vec::new(alloc);
        items.resize(places, item)?;
        Ok(Table { rows, last, items })
    }

    /// The number of the rows.
    pub fn rows(&self) -> u32
        ensures { result ≡ self.now.rows }
    {
        self.rows
    }

    /// The last moment.
    pub fn last(&self) -> u16
        ensures { result ≡ self.now.last }
    {
        self.last
    }

    /// The item of a row at a moment.
    pub fn get(&self, row: u32, moment: u16) -> T
        requires row_in { row < self.now.rows }
        requires moment_in { moment ≤ self.now.last }
        ensures { (d : T) → result ≡ item_at d self.now row moment }
    {
        self.items[row as usize * (self.last as usize + 1) + moment as usize]
    }

    /// Puts an item in the place of a row at a moment.
    pub fn put(&mut self, row: u32, moment: u16, item: T)
        requires row_in { row < self.old.rows }
        requires moment_in { moment ≤ self.old.last }
        ensures { IsPut self.old self.new row moment item }
    {
        let place = row as usize * (self.last as usize + 1) + moment as usize;
        self.items[place] = item;
    }
}
