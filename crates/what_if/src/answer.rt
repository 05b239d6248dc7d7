//! What is answered.
ghost use Rattle.std.specs.Prelude.{◌≡◌};
ghost use Rattle.what_if.specs.declared.answer.WhatIfFault.TheVariants.{Memory};

use building_table::NameFault;
use evac_law::{Code, EditFault};
use std::alloc::AllocError;

/// What it costs to shut an exit of a building that can be cleared.
#[derive(Clone, Copy, PartialEq, Eq)]
pub enum Answer {
    /// The last are out at these moments: with the exit open, and with it shut.
    Cleared { before: u16, after: u16 },
    /// With the exit shut at most `most` of the people are out by the horizon.
    NotCleared { before: u16, people: u32, most: u32 },
}

/// Why there is no answer.
#[derive(Clone, Copy, PartialEq, Eq)]
pub enum WhatIfFault {
    /// The first fault of the text, by its code and its line.
    Text { code: Code, line: u32 },
    /// With the exit open at most `most` are out by the horizon, and not everybody.
    NeverCleared { most: u32 },
    /// No node has the name.
    Name(NameFault),
    /// The exit isn't shut: it is none, or is shut already.
    Edit(EditFault),
    /// There is no memory.
    Memory,
}

impl From<AllocError> for WhatIfFault {
    ghost from_gives = { λ _ fault. fault ≡ Memory };

    fn from(_error: AllocError) -> WhatIfFault {
        WhatIfFault::Memory
    }
}
