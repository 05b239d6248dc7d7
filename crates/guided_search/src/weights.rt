//! What steps weigh: by how much the distance label rises over them.
//!
//! A forward step weighs 0, and one that takes people back 1, but for two things. A step over an arc that leads astray weighs 1 too, up to a
//! limit of the distance label: so people wait if they could walk to and fro, and paths go straight. And from that limit on a run of waits weighs
//! 1 if it is taken back, as one step: otherwise distance labels creep through all the numbers up to the length of the longest wait.
//!
//! The higher the limit, the straighter the paths, and the more the search costs. So it begins low, and rises once too many people are sent
//! astray. If as many are sent astray all the same, it falls again, and stays there.
ghost use Rattle.std.specs.Prelude.{◌≡◌, ◌+◌, ◌≤◌};

use crate::tuning::{ASTRAY_LIMIT, ASTRAY_SHARE, HIGH_LIMIT, LOW_LIMIT, VAIN_LIMIT, VAIN_SHARE};
use residual_ways::{Limits, Way};

/// How far the weights reach.
#[derive(Clone, Copy)]
enum Reach {
    /// As the search begins.
    Low,
    /// Too many people were sent astray.
    High,
    /// They were so all the same.
    InVain,
}

/// What comes of the people who were sent.
#[derive(Clone, Copy)]
pub enum Change {
    /// The limit stays.
    None,
    /// It rises. Labels by a lower limit are lower bounds of those by a higher one.
    Rise,
    /// It falls, so labels may be too high.
    Fall,
}

/// The limit of the weights, and how many people were sent since it changed.
#[derive(Clone, Copy)]
pub struct Weights {
    /// How far they reach.
    reach: Reach,
    /// How many people were sent along paths that lead astray at no weight.
    astray: u32,
    /// How many were sent along others.
    straight: u32,
}

impl Weights {
    /// The weights with which a search begins.
    pub fn new() -> Weights {
        Weights::within(Reach::Low)
    }

    // Weights of a reach, by which nobody was sent yet.
    fn within(reach: Reach) -> Weights {
        Weights {
            reach,
            astray: 0,
            straight: 0,
        }
    }

    /// The limits of arcs that lead astray. From that of those that lead away on, a run of waits counts as one step.
    pub fn limits(self) -> Limits {
        match self.reach {
            Reach::Low | Reach::InVain => Limits {
                detour: LOW_LIMIT / 2,
                away: LOW_LIMIT,
            },
            Reach::High => Limits {
                detour: HIGH_LIMIT,
                away: HIGH_LIMIT,
            },
        }
    }

    /// Counts people who were sent along a path, and whether it leads astray.
    pub fn count(&mut self, people: u32, is_astray: bool) -> Change {
        if !is_astray {
            self.straight = self.straight.saturating_add(people);
            return Change::None;
        }
        self.astray = self.astray.saturating_add(people);
        match self.reach {
            Reach::Low if self.is_above(ASTRAY_SHARE, ASTRAY_LIMIT) => {
                *self = Weights::within(Reach::High);
                Change::Rise
            }
            Reach::High if self.is_above(VAIN_SHARE, VAIN_LIMIT) => {
                *self = Weights::within(Reach::InVain);
                Change::Fall
            }
            _ => Change::None,
        }
    }

    // Whether more people than some, and one of so many others, were sent astray.
    fn is_above(self, share: u32, people: u32) -> bool {
        self.astray.saturating_sub(people).saturating_mul(share) > self.straight
    }
}

/// The distance label after a forward step, by that before it.
pub fn label_after(way: Way, before: u32) -> u32
    requires { before ≤ 65535 }
    ensures { result ≤ before + 1 }
{
    if before < way.weighs_below {
        before + 1
    } else {
        before
    }
}

/// The distance label after a run of waits is taken back, by that before it and the limit from which on it is one step.
pub fn label_after_run(limit: u16, before: u32) -> u32
    requires { before ≤ 65535 }
    ensures { result ≤ 65536 }
{
    before.max(limit as u32) + 1
}
