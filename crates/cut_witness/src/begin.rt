//! The start of a walk through the items of a cut.
ghost use Rattle.std.specs.Prelude.{◌≡◌, ◌≤◌};
ghost use Rattle.evac_law.specs.Building.{IsValid};
ghost use Rattle.evac_law.specs.Certificates.{IsTableOf, label_cut};
ghost use Rattle.evac_law.specs.Cuts.{cut_items};

use crate::period_cut::PeriodCut;
use crate::position::{Part, Position};
use crate::walk::Crossing;
use evac_law::{Labels, Model};

/// The items of the cut that labels make for period `k`, all of them still to come.
pub fn crossing<'a>(model: &'a Model, labels: &'a Labels, k: u16) -> Crossing<'a>
    requires valid { IsValid model.now }
    requires table { IsTableOf model.now labels.now }
    requires k_in { k ≤ model.now.horizon }
    ensures { result ≡ cut_items model.now (label_cut model.now labels.now k) k }
{
    Crossing {
        cut: PeriodCut { model, labels, k },
        place: Position {
            part: Part::Entries,
            row: 0,
            column: 0,
        },
    }
}
