//! People who come into a node after moment 0.
ghost use Rattle.std.specs.Prelude.{◌≡◌, ◌≤◌, ◌&&◌, ◌==◌, if◌then◌else◌};
ghost use Rattle.std.specs.List.{AllPairs, sum_by};
ghost use Rattle.evac_law.specs.Entrants.{ComesBefore, entering};
ghost use Rattle.evac_law.specs.Limits.{people_limit};

/// People who come into a node from nowhere at a moment.
#[derive(Clone, Copy)]
pub struct Entrant {
    pub node: u32,
    pub moment: u16,
    pub people: u32,
}

impl Entrant {
    // The people, where they come into a node at a moment.
    fn people_at(self, node: u32, moment: u16) -> u32
        ensures { result ≡ if self.node == node && self.moment == moment then self.people else 0 }
    {
        if self.node == node && self.moment == moment {
            self.people
        } else {
            0
        }
    }
}

/// The people of some entrants.
#[tactic(auto, unfolding(crate::specs::Limits::people_limit))]
pub(crate) fn sum(entrants: &[Entrant]) -> u32
    requires { sum_by (λ e. e.people) entrants.now ≤ people_limit }
    ensures { result ≡ sum_by (λ e. e.people) entrants.now }
{
    let mut all = 0;
    for entrant in entrants {
        all += entrant.people;
    }
    all
}

/// The people of some entrants, by node and then moment, who come into a node at a moment.
pub(crate) fn entering(entrants: &[Entrant], node: u32, moment: u16) -> u32
    requires { AllPairs ComesBefore entrants.now }
    ensures { result ≡ entering entrants.now node moment }
{
    let place = entrants.partition_point(|e| e.node < node
        || (e.node == node && e.moment < moment));
    match entrants.get(place) {
        Some(entrant) => entrant.people_at(node, moment),
        None => 0,
    }
}
