//! Steps over a place, forwards and backwards.
ghost use Rattle.std.specs.Prelude.{◌≡◌, false, true};

use residual_net::{PathStep, Place};

pub fn forth(place: Place) -> PathStep
    ensures { result ≡ record { place = place; back = false } }
{
    PathStep { place, back: false }
}

pub fn back(place: Place) -> PathStep
    ensures { result ≡ record { place = place; back = true } }
{
    PathStep { place, back: true }
}
