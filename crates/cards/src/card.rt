//! Cards.
ghost use Rattle.std.specs.Prelude.{◌≡◌};

use route_decompose::RouteStep;
use std::marker::Model;

/// The way of one person: from a node at a moment along arcs into an exit.
#[derive(Drop)]
pub struct Card<'a> {
    pub(crate) start: u32,
    pub(crate) entered: u16,
    pub(crate) steps: &'a [RouteStep],
}

impl<'a> Model for Card<'a> {
    ghost use Rattle.cards.specs.Cards.{CardView};

    ghost Value = { CardView };

    ghost view = { λ c. record { start = c.start; entered = c.entered; steps = c.steps.now } };
}

impl<'a> Card<'a> {
    /// The node where the person comes in.
    pub fn start(&self) -> u32
        ensures { result ≡ self.now.start }
    {
        self.start
    }

    /// The moment at which the person comes in.
    pub fn entered(&self) -> u16
        ensures { result ≡ self.now.entered }
    {
        self.entered
    }

    /// The steps, in order.
    pub fn steps(&self) -> &[RouteStep]
        ensures { result.now ≡ self.now.steps }
    {
        self.steps
    }
}
