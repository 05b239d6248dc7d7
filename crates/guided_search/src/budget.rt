//! How much a search for shortest paths may cost in a net from which people were taken.
ghost use Rattle.std.specs.Prelude.{◌<◌};

use crate::tuning::{CROWD_SHARE, EARNED_SHARE};

/// How many pairs may still be relabelled globally. The same pairs would be relabelled again and again there, so these are as many as
/// there are at first, and more for each person who is sent.
#[derive(Clone, Copy)]
pub struct Budget {
    /// How many pairs there are.
    pairs: u64,
    /// How many people there are.
    people: u64,
    /// How many of them were sent since.
    sent: u64,
    /// How many pairs were relabelled globally since.
    spent: u64,
    ghost some: { 0 < people },
}

impl Budget {
    /// The budget in a net of some pairs, where some people are sent already and some aren't. Where nobody is sent yet there is none.
    pub fn new(pairs: u32, sent: u32, unsent: u32) -> Option<Budget> {
        if sent == 0 {
            return None;
        }
        Some(Budget {
            pairs: pairs as u64,
            people: sent as u64 + unsent as u64,
            sent: 0,
            spent: 0,
        })
    }

    /// How many pairs may still be relabelled.
    pub fn left(&self) -> usize {
        let first = self.pairs.saturating_add(self.people / CROWD_SHARE);
        let earned = self.pairs.saturating_mul(self.sent) / self.people / EARNED_SHARE;
        first.saturating_add(earned).saturating_sub(self.spent) as usize
    }

    /// Some pairs were relabelled.
    pub fn spend(&mut self, pairs: usize) {
        self.spent = self.spent.saturating_add(pairs as u64);
    }

    /// Some people were sent.
    pub fn earn(&mut self, people: u32) {
        self.sent = self.sent.saturating_add(people as u64);
    }
}
