//! A net as a standing plan.
ghost use Rattle.std.specs.Prelude.{◌≡◌, ℕ, ◌<◌, ◌≤◌, length, slice_index};

use crate::net::Net;
use evac_law::Standing;

/// The last place of a list at which somebody is, or 0.
pub fn last_some(people: &[u32]) -> usize
    ensures some { 0 < result → (result < length people.now) × (0 < slice_index people.now result) }
    ensures none_later { (j : ℕ) → result < j → j < length people.now → slice_index people.now j ≡ 0 }
{
    people.iter().rposition(|here| *here > 0).unwrap_or(0)
}

impl Standing for Net {
    ghost use Rattle.residual_net.specs.OfModel.{stand_of};

    ghost stand = { λ w. stand_of w };

    fn moved(&self, arc: u32, moment: u16) -> u32 {
        Net::moved(self, arc, moment)
    }

    fn held(&self, node: u32, moment: u16) -> u32 {
        Net::held(self, node, moment)
    }

    fn cleared(&self) -> u16 {
        self.last_arrival()
    }
}
