//! How large a building is, and how its pairs and cells are numbered.
//!
//! A pair is a node at a moment, and the pairs of a node come one after another. A row of cells has one for each moment: rows of arcs
//! come first, then those of the nodes' waits, and then those of their supplies. So waits and supplies are in the order of pairs.
ghost use Rattle.std.specs.Prelude.{◌≡◌, ℕ, ◌+◌, ◌*◌, ◌<◌, ◌≤◌, ◌^◌, length};
ghost use Rattle.residual_net.specs.Site.{Site, cell_of};
ghost use Rattle.residual_net.specs.declared.place.Place.TheVariants.{Arc, Hold, Supply};

use evac_law::Model as Building;
use residual_net::Place;

/// How many nodes, arcs and moments there are, and how many pairs and cells of these.
#[derive(Clone, Copy)]
pub struct Sizes {
    pub nodes: u32,
    pub arcs: u32,
    pub moments: u32,
    pub pairs: u32,
    pub cells: u32,
    pub ghost some: { 0 < moments },
    pub ghost short: { moments ≤ 65536 },
    pub ghost pairs_are: { pairs ≡ nodes * moments },
    pub ghost cells_are: { cells ≡ arcs * moments + 2 * (nodes * moments) },
    pub ghost small: { cells < 2 ^ 32 },
}

impl Sizes {
    ghost use Rattle.residual_ways.specs.Layout.{AreSizesOf};
    ghost use Rattle.residual_ways.specs.Steps.{IsPair};

    // The sizes of so many nodes and arcs at so many moments.
    fn new(nodes: u32, arcs: u32, moments: u32) -> Sizes
        requires some { 0 < moments }
        requires short { moments ≤ 65536 }
        requires small { arcs * moments + 2 * (nodes * moments) < 2 ^ 32 }
        ensures nodes { result.nodes ≡ nodes }
        ensures arcs { result.arcs ≡ arcs }
        ensures moments { result.moments ≡ moments }
    {
        let pairs = nodes * moments;
        Sizes {
            nodes,
            arcs,
            moments,
            pairs,
            cells: arcs * moments + 2 * pairs,
        }
    }

    /// The sizes of a building. One with too many cells for their numbers counts as empty.
    pub fn of(model: &Building) -> Sizes
        ensures all { (length model.now.arcs + 2 * length model.now.nodes) * (model.now.horizon + 1) < 2 ^ 32 → (result.nodes ≡ length model.now.nodes) × (result.arcs ≡ length model.now.arcs) }
        ensures nodes { result.nodes ≤ length model.now.nodes }
        ensures arcs { result.arcs ≤ length model.now.arcs }
        ensures moments { result.moments ≡ model.now.horizon + 1 }
    {
        let moments = model.horizon as u32 + 1;
        let most = (u32::MAX / moments) as usize;
        let nodes = model.nodes.len();
        let arcs = model.arcs.len();
        if arcs > most || nodes > (most - arcs) / 2 {
            return Sizes::new(0, 0, moments);
        }
        Sizes::new(nodes as u32, arcs as u32, moments)
    }

    /// The pair of a node at moment 0.
    pub fn first_pair(&self, node: u32) -> u32
        requires { node < self.now.nodes }
        ensures pair { result ≡ node * self.now.moments }
        ensures within { result + self.now.moments ≤ self.now.pairs }
    {
        node * self.moments
    }

    /// The pair of a node at a moment.
    pub(crate) fn pair(&self, node: u32, moment: u32) -> u32
        requires { IsPair self.now node moment }
        ensures pair { result ≡ node * self.now.moments + moment }
        ensures within { result < self.now.pairs }
    {
        self.first_pair(node) + moment
    }

    /// The node and the moment of a pair.
    pub fn node_and_moment(&self, pair: u32) -> (u32, u32)
        requires { pair < self.now.pairs }
        ensures pair { result.0 * self.now.moments + result.1 ≡ pair }
        ensures within { IsPair self.now result.0 result.1 }
    {
        (pair / self.moments, pair % self.moments)
    }

    /// The number of the list of a node's exit ways.
    pub(crate) fn exit_list(&self, node: u32) -> u32
        requires { node < self.now.nodes }
        ensures { result ≡ self.now.nodes + node }
    {
        self.nodes + node
    }

    /// The row of the waits in a node.
    pub(crate) fn wait_row(&self, node: u32) -> u32
        requires { node < self.now.nodes }
        ensures { result ≡ self.now.arcs + node }
    {
        self.arcs + node
    }

    /// The cell of an arc, or of the waits in a node, at moment 0.
    pub(crate) fn first_cell(&self, row: u32) -> u32
        requires { row < self.now.arcs + self.now.nodes }
        ensures arc { (site : Site) → AreSizesOf site self.now → row < self.now.arcs → cell_of site (Arc row 0) ≡ result }
        ensures wait { (site : Site) (node : ℕ) → AreSizesOf site self.now → self.now.arcs + node ≡ row → cell_of site (Hold node 0) ≡ result }
        ensures within { result + self.now.moments ≤ self.now.cells }
    {
        row * self.moments
    }

    /// The cell of the waits at a pair.
    pub fn wait(&self, pair: u32) -> u32
        requires { pair ≤ self.now.pairs }
        ensures cell { (site : Site) (node moment : ℕ) → AreSizesOf site self.now → node * self.now.moments + moment ≡ pair → cell_of site (Hold node moment) ≡ result }
        ensures within { result + 2 * self.now.pairs ≡ self.now.cells + pair }
    {
        self.cells - 2 * self.pairs + pair
    }

    /// The cell of the people who come in at a pair.
    pub(crate) fn supply(&self, pair: u32) -> u32
        requires { pair ≤ self.now.pairs }
        ensures cell { (site : Site) (node moment : ℕ) → AreSizesOf site self.now → node * self.now.moments + moment ≡ pair → cell_of site (Supply node moment) ≡ result }
        ensures within { result + self.now.pairs ≡ self.now.cells + pair }
    {
        self.cells - self.pairs + pair
    }

    /// The place of a cell.
    pub(crate) fn place_of(&self, cell: u32) -> Place
        ensures { (site : Site) → AreSizesOf site self.now → cell_of site result ≡ cell }
    {
        let row = cell / self.moments;
        let moment = (cell % self.moments) as u16;
        if row < self.arcs {
            return Place::Arc { arc: row, moment };
        }
        let node = row - self.arcs;
        if node < self.nodes {
            return Place::Hold { node, moment };
        }
        let node = node - self.nodes;
        Place::Supply { node, moment }
    }
}
