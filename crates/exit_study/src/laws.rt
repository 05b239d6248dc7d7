//! The laws, each the contract of a function with nothing to do.
ghost use Rattle.exit_study.specs.Laws.{EnoughStays, TooSlowIsNotEnough};

/// A rate that is enough stays enough when it grows.
pub fn enough_stays()
    ensures { EnoughStays }
{}

/// Where a cut shows that a rate is too slow, it isn't enough.
pub fn too_slow_is_not_enough()
    ensures { TooSlowIsNotEnough }
{}
