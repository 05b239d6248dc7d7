//! Numbers for periods, kept as what they rise and fall by at each.
ghost use Rattle.std.specs.Prelude.{◌≡◌, ℕ, ◌+◌, ◌*◌, ◌<◌, ◌≤◌, ◌^◌, if◌then◌else◌, IfOk, nat_le, length, slice_index, sum, take};
ghost use Rattle.cut_witness.specs.Changes.{IsChanges, IsBalance, in_span, turnover};

use crate::span::Span;
use std::alloc::{AllocError, Global};
use std::marker::Model;

/// A number for each period, as what is added at a period and later, less what is taken off at a period and later.
#[derive(Drop)]
pub struct Differences {
    rises: Vec<u64>,
    falls: Vec<u64>,
}

impl Model for Differences {
    ghost use Rattle.cut_witness.specs.Changes.{Changes, IsChanges};

    ghost Value = { Changes };

    ghost view = { λ d. record { rises = d.rises.items; falls = d.falls.items } };

    ghost invariant = { λ d. IsChanges (record { rises = d.rises.items; falls = d.falls.items }) };
}

// Adds people at a period, if it is one of the list's.
fn raise(list: &mut [u64], period: u16, people: u32)
    requires { sum list.old + people < 2 ^ 64 }
    ensures sums { (k : ℕ) → k < length list.old → sum (take (k + 1) list.new) ≡ sum (take (k + 1) list.old) + (if nat_le period k then people else 0) }
    ensures all { sum list.new ≤ sum list.old + people }
{
    let place = usize::from(period);
    if place < list.len() {
        list[place] += u64::from(people);
    }
}

// Writes what the rises up to each period are above the falls.
fn write_numbers(rises: &[u64], falls: &[u64], numbers: &mut [u64])
    requires falls { length falls.now ≡ length rises.now }
    requires numbers { length numbers.old ≡ length rises.now }
    requires room { sum rises.now < 2 ^ 64 }
    requires nets { (k : ℕ) → k < length rises.now → (v : ℕ) × (sum (take (k + 1) rises.now) ≡ sum (take (k + 1) falls.now) + v) }
    ensures { (k : ℕ) → k < length rises.now → sum (take (k + 1) rises.now) ≡ sum (take (k + 1) falls.now) + slice_index numbers.new k }
{
    let mut number = 0u64;
    for (period, place) in numbers.iter_mut().enumerate() {
        number += rises[period];
        number -= falls[period];
        *place = number;
    }
}

impl Differences {
    /// The number 0 for each period up to the horizon.
    pub fn new(alloc: Global, horizon: u16) -> Result<Differences, AllocError>
        ensures { IfOk result (λ d. length d.rises ≡ horizon + 1) }
    {
        let periods = usize::from(horizon) + 1;
        let rises = vec![in alloc; 0u64; periods]?;
        let falls = vec![in alloc; 0u64; periods]?;
        Ok(Differences { rises, falls })
    }

    /// Makes each number 0.
    pub fn clear(&mut self)
        ensures periods { length self.new.rises ≡ length self.old.rises }
        ensures net { (k : ℕ) → k < length self.old.rises → IsBalance self.new k 0 }
        ensures turnover { turnover self.new ≡ 0 }
    {
        self.rises.as_mut_slice().fill(0);
        self.falls.as_mut_slice().fill(0);
    }

    /// Adds people to the numbers of a span's periods.
    pub fn add(&mut self, span: Span, people: u32)
        requires room { turnover self.old + 2 * people < 2 ^ 64 }
        ensures periods { length self.new.rises ≡ length self.old.rises }
        ensures net { (k v : ℕ) → k < length self.old.rises → IsBalance self.old k v → IsBalance self.new k (v + (if in_span span k then people else 0)) }
        ensures turnover { turnover self.new ≤ turnover self.old + 2 * people }
    {
        if span.from < span.to {
            raise(self.rises.as_mut_slice(), span.from, people);
            raise(self.falls.as_mut_slice(), span.to, people);
        }
    }

    /// Writes the numbers to a list.
    pub fn write_to(&self, numbers: &mut [u64])
        requires periods { length numbers.old ≡ length self.now.rises }
        requires room { turnover self.now < 2 ^ 64 }
        requires nets { (k : ℕ) → k < length self.now.rises → (v : ℕ) × IsBalance self.now k v }
        ensures { (k v : ℕ) → k < length self.now.rises → IsBalance self.now k v → slice_index numbers.new k ≡ v }
    {
        write_numbers(self.rises.as_slice(), self.falls.as_slice(), numbers);
    }
}
