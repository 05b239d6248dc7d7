//! The residual network: what a search goes over.
ghost use Rattle.std.specs.Prelude.{◌≡◌, ◌<◌, IfSome, length};
ghost use Rattle.std.specs.List.{All};
ghost use Rattle.residual_ways.specs.Steps.{IsPair, IsStepWithin};
ghost use Rattle.residual_ways.specs.Ways.{IsStepInto, IsWayWithin};

use crate::sizes::Sizes;
use crate::step::Step;
use crate::way::Way;
use crate::ways::Ways;
use residual_net::Cell;

/// The cells of a net, and the ways over them.
#[derive(Clone, Copy)]
pub struct Residual<'a> {
    /// The cells of all places.
    pub cells: &'a [Cell],
    /// The ways into the pairs.
    pub ways: &'a Ways,
    pub ghost cells_fit: { length cells.now ≡ ways.now.sizes.cells },
}

/// The ways into the pair of a node at a moment.
#[derive(Clone, Copy)]
pub struct Incoming<'a> {
    /// The ways into the node.
    pub ways: &'a [Way],
    /// The cells of all places.
    pub cells: &'a [Cell],
    /// How large the building is.
    pub sizes: Sizes,
    /// The moment.
    pub moment: u32,
    pub ghost ways_fit: { All (IsWayWithin sizes) ways.now },
    pub ghost cells_fit: { length cells.now ≡ sizes.cells },
    pub ghost within: { moment < sizes.moments },
}

impl<'a> Residual<'a> {
    /// How large the building is.
    pub fn sizes(&self) -> Sizes
        ensures { result ≡ self.now.ways.now.sizes }
    {
        self.ways.sizes
    }

    /// The ways into a pair.
    pub fn incoming(&self, node: u32, moment: u32) -> Incoming<'a>
        requires { IsPair self.now.ways.now.sizes node moment }
        ensures sizes { result.sizes ≡ self.now.ways.now.sizes }
        ensures moment { result.moment ≡ moment }
    {
        Incoming {
            ways: self.ways.into(node),
            cells: self.cells,
            sizes: self.sizes(),
            moment,
        }
    }

    /// The ways into a pair by its number.
    pub fn incoming_at(&self, pair: u32) -> Incoming<'a>
        requires { pair < self.now.ways.now.sizes.pairs }
        ensures { result.sizes ≡ self.now.ways.now.sizes }
    {
        let (node, moment) = self.sizes().node_and_moment(pair);
        self.incoming(node, moment)
    }
}

impl Incoming<'_> {
    /// The step that a way is, where it begins within the horizon.
    pub fn step(&self, way: Way) -> Option<Step>
        requires { IsWayWithin self.now.sizes way }
        ensures step { IsStepInto self.now.sizes way self.now.moment result }
        ensures within { IfSome result (IsStepWithin self.now.sizes) }
    {
        way.step(self.sizes, self.moment)
    }
}
