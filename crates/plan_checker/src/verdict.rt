//! What the checker says of a block.

/// The first part of a block that fails, in the order of the variants but the first, or that none does.
#[derive(Clone, Copy, PartialEq, Eq)]
pub enum Verdict {
    Yes,
    /// The stated people aren't the model's.
    PeopleWrong,
    /// More people enter an arc at a moment than its rate.
    RateBroken { moment: u16, arc: u32 },
    /// A node that is no exit holds fewer than none at a moment, or more than its capacity.
    HeldBroken { moment: u16, node: u32 },
    /// A move arrives after the stated moment, or not all are out by then, or all were out one period before.
    NotAllOut,
    /// The stated number of a period isn't that of the people out by then.
    OutWrong { period: u16 },
    /// The cut of a period isn't worth the people out by then.
    CutWrong { period: u16 },
}
