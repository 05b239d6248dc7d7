//! A plan that stands: who moves when, who is where, and when the last one is out.
ghost use Rattle.std.specs.Prelude.{◌≡◌, ◌<◌, ◌≤◌};
ghost use Rattle.evac_law.specs.Plans.{moved};
ghost use Rattle.evac_law.specs.Stands.{Stand};

/// What stands: a plan, a table of contents and a last moment.
pub trait Standing {
    ghost stand: { Self → Stand };

    /// The people who enter an arc at a moment.
    fn moved(&self, arc: u32, moment: u16) -> u32
        requires arc_in { arc < (stand self.now).arcs }
        requires moment_in { moment ≤ (stand self.now).horizon }
        ensures { result ≡ moved (stand self.now).plan arc moment };

    /// The people in a node at a moment.
    fn held(&self, node: u32, moment: u16) -> u32
        requires node_in { node < (stand self.now).nodes }
        requires moment_in { moment ≤ (stand self.now).horizon }
        ensures { result ≡ (stand self.now).contents node moment };

    /// The last moment at which somebody arrives.
    fn cleared(&self) -> u16
        ensures { result ≡ (stand self.now).last };
}
