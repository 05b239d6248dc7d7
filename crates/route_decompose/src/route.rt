//! Routes and their steps.
ghost use Rattle.std.specs.Prelude.{◌≡◌};

use std::marker::Model;

/// An arc, and the moment at which it is entered.
#[derive(Clone, Copy)]
pub struct RouteStep {
    pub moment: u16,
    pub arc: u32,
}

/// People who come into a node at the same moment and go from there into an exit by the same steps.
#[derive(Drop)]
pub struct Route<'a> {
    pub(crate) people: u32,
    pub(crate) start: u32,
    pub(crate) entered: u16,
    pub(crate) steps: &'a [RouteStep],
}

impl<'a> Model for Route<'a> {
    ghost use Rattle.route_decompose.specs.Routes.{RouteView};

    ghost Value = { RouteView };

    ghost view = { λ r. record { people = r.people; start = r.start; entered = r.entered; steps = r.steps.now } };
}

impl<'a> Route<'a> {
    /// How many they are.
    pub fn people(&self) -> u32
        ensures { result ≡ self.now.people }
    {
        self.people
    }

    /// The node where they start.
    pub fn start(&self) -> u32
        ensures { result ≡ self.now.start }
    {
        self.start
    }

    /// The moment at which they come in.
    pub fn entered(&self) -> u16
        ensures { result ≡ self.now.entered }
    {
        self.entered
    }

    /// Their steps, in order.
    pub fn steps(&self) -> &[RouteStep]
        ensures { result.now ≡ self.now.steps }
    {
        self.steps
    }
}
