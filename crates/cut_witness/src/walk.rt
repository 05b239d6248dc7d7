//! The walk through the items of a cut.
ghost use Rattle.std.specs.Prelude.{◌≡◌, [], ◌∷◌, IfNone, IfSome};

use crate::period_cut::PeriodCut;
use crate::position::Position;
use evac_law::CutItem;

/// The items of a cut that are still to come: entries above 0 by node and moment, holds by node and moment, arcs by moment and arc.
#[derive(Drop)]
pub struct Crossing<'a> {
    pub(crate) cut: PeriodCut<'a>,
    pub(crate) place: Position,
}

impl<'a> std::marker::Model for Crossing<'a> {
    ghost use Rattle.std.specs.Prelude.{List};
    ghost use Rattle.evac_law.specs.declared.cut.CutItem.{CutItem};
    ghost use Rattle.evac_law.specs.Certificates.{label_cut};
    ghost use Rattle.cut_witness.specs.Crossing.{IsPosition, rest_at};

    ghost Value = { List CutItem };

    ghost view = { λ c. rest_at c.cut.model.now (label_cut c.cut.model.now c.cut.labels.now c.cut.k) c.cut.k c.place };

    ghost invariant = { λ c. IsPosition c.cut.model.now c.cut.k c.place };
}

impl<'a> Crossing<'a> {
    /// The next item.
    pub fn next(&mut self) -> Option<CutItem>
        ensures none { IfNone result (self.old ≡ []) }
        ensures some { IfSome result (λ item. self.old ≡ item ∷ self.new) }
        ensures ended { IfNone result (self.new ≡ []) }
    {
        while self.cut.has_steps(self.place) {
            let item = self.cut.step(&mut self.place);
            if let Some(item) = item {
                return Some(item);
            }
        }
        None
    }
}
