//! How many people there have been by each moment.
ghost use Rattle.std.specs.Prelude.{◌≡◌, ◌<◌, ◌≤◌, ◌^◌, IfOk};
ghost use Rattle.tables.specs.Tables.{IsPut};
ghost use Rattle.plan_layout.specs.Tables.{people_at};
ghost use Rattle.cards.specs.Numbers.{count_before};

use std::alloc::{AllocError, Global};
use std::marker::Model;
use tables::Table;

/// A number for each row and each moment up to the last. A sum over moments may be more than 32 bits hold.
#[derive(Drop)]
pub struct SumTable {
    sums: Table<u64>,
}

impl Model for SumTable {
    ghost use Rattle.plan_layout.specs.Tables.{PeopleTable};
    ghost use Rattle.cards.specs.Kept.{IsSumTable};

    ghost Value = { PeopleTable };

    ghost view = { λ t. t.sums };

    ghost invariant = { λ t. IsSumTable t.sums };
}

impl SumTable {
    /// The number 0 for each row and moment.
    pub fn new(alloc: Global, rows: u32, last: u16) -> Result<SumTable, AllocError>
        ensures rows { IfOk result (λ c. c.rows ≡ rows) }
        ensures last { IfOk result (λ c. c.last ≡ last) }
    {
        let sums = Table::new(alloc, 0, rows, last)?;
        Ok(SumTable { sums })
    }

    /// The number of a row at a moment.
    pub fn get(&self, row: u32, moment: u16) -> u64
        requires row_in { row < self.now.rows }
        requires moment_in { moment ≤ self.now.last }
        ensures number { result ≡ people_at self.now row moment }
        ensures small { result < 2 ^ 62 }
    {
        self.sums.get(row, moment)
    }

    /// The number of a row just before a moment.
    pub fn before(&self, row: u32, moment: u16) -> u64
        requires row_in { row < self.now.rows }
        requires moment_in { moment ≤ self.now.last }
        ensures number { result ≡ count_before (people_at self.now row) moment }
        ensures small { result < 2 ^ 62 }
    {
        if moment == 0 {
            return 0;
        }
        self.get(row, moment - 1)
    }

    /// Sets the number of a row at a moment.
    pub fn put(&mut self, row: u32, moment: u16, number: u64)
        requires row_in { row < self.old.rows }
        requires moment_in { moment ≤ self.old.last }
        requires small { number < 2 ^ 62 }
        ensures { IsPut self.old self.new row moment number }
    {
        self.sums.put(row, moment, number);
    }
}
