//! What follows from a verdict, as the contracts of functions with nothing to do.
ghost use Rattle.plan_checker.specs.VerdictLaws.{OneVerdict, YesIsCertified};

/// Yes is the verdict exactly of the blocks that are right.
#[tactic(auto, using(crate::proofs::LawLemmas::yes_is_certified))]
pub fn yes_is_certified()
    ensures { YesIsCertified }
{}

/// No block has two verdicts.
#[tactic(auto, using(crate::proofs::LawLemmas::one_verdict))]
pub fn one_verdict()
    ensures { OneVerdict }
{}
