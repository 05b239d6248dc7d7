//! The law of those who would meet nobody, the contract of a function with nothing to do.
ghost use Rattle.clearing_report.specs.Laws.{UncongestedIsLeast};

/// No plan has everybody out sooner than those would be who met nobody: `uncongested` is at most `cleared`.
pub fn uncongested_is_least()
    ensures { UncongestedIsLeast }
{}
