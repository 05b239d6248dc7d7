//! The laws on runs, each the contract of a function with nothing to do.
ghost use Rattle.evac_top.specs.FirstLine.{FirstAdvanceIsCarriedOut, FirstEditGetsItsBlock, FirstReplanEditGetsItsBlock, FirstUndoIsRefused, FirstWorkIsOfTheOpening, StoppingIsRefused};
ghost use Rattle.evac_top.specs.Headline.{PlansKeepPromise, ReplansKeepPromise, SessionsKeepPromise};
ghost use Rattle.evac_top.specs.Promises.{ChecksKeepPromise, DrillsKeepPromise, StudyKeepsPromise, UpgradesKeepPromise, YesIsBest};
ghost use Rattle.evac_top.specs.Runs.{RunsAnswer};
ghost use Rattle.evac_top.specs.TwoRuns.{DrillsAgree, SessionSolvesAlike, SolvedIsChecked, SolvesAgree, UpgradedSolvesAlike, UpgradedTwice};

/// A run in which neither count of faults rose, and there was memory, answers its input: the words exactly by the modes, a building by its
/// plan exactly where it can be cleared, a block by yes exactly where it is right, and a fault by its line.
pub fn runs_answer()
    ensures { RunsAnswer }
{}

/// A session on a building that can be cleared, with any lines after it, opens with block 0 of that building, and no edit is kept yet. Each answer
/// block written reads back as a feasible plan of the edited building that takes everybody out, with a cut for every period that is worth as
/// many as are out by then, so no feasible plan has more people out by any period; a count bounds what the repair took back and how often it
/// sent people; and whatever was refused left model and plan as they were. Nothing else is written: the replies to the lines come one after
/// another, up to the end of the input, a line that quits, or the refusal of a line that has a fault of its own. A building that can't be cleared
/// is refused with its shortfall, and a text with a fault by its line.
pub fn sessions_keep_promise()
    ensures { SessionsKeepPromise }
{}

/// The same of a session whose plan is carried out. It opens with nobody gone, and each answer block that is written is such a block of its own
/// building. After a plan that was carried out up to a moment that is what is left of the building, and the moves made by then with the plan that
/// is written are best at every period among all plans that make the same moves.
pub fn replans_keep_promise()
    ensures { ReplansKeepPromise }
{}

/// A building that can be cleared, planned without a session: the block written is such a block too, and after it comes what is asked for
/// and nothing else. Others are refused as a session refuses them.
pub fn plans_keep_promise()
    ensures { PlansKeepPromise }
{}

/// Whoever keeps the promise of a session answers an edit that is accepted by the block of the edited building, and not of another one: here it
/// is said of the first line after the building.
pub fn first_edit_gets_its_block()
    ensures { FirstEditGetsItsBlock }
{}

/// Whoever writes block 0 and stops answering, with such an edit after the building, doesn't keep the promise of a session.
pub fn stopping_is_refused()
    ensures { StoppingIsRefused }
{}

/// Whoever keeps the promise of a replan answers such an edit alike: before an advance none comes too late.
pub fn first_replan_edit_gets_its_block()
    ensures { FirstReplanEditGetsItsBlock }
{}

/// Whoever keeps the promise of a replan carries the plan out by the first advance, and nobody is gone but whom the moves before it bring out.
pub fn first_advance_is_carried_out()
    ensures { FirstAdvanceIsCarriedOut }
{}

/// Whoever keeps the promise of a session refuses an undo as the first line after the building: no edit is kept yet.
#[tactic(auto, using(crate::proofs::FirstLineLemmas::first_undo_is_refused))]
pub fn first_undo_is_refused()
    ensures { FirstUndoIsRefused }
{}

/// It says of the work before any edit that nobody was taken back.
#[tactic(auto, using(crate::proofs::FirstLineLemmas::first_work_is_of_the_opening))]
pub fn first_work_is_of_the_opening()
    ensures { FirstWorkIsOfTheOpening }
{}

/// A study on a building that can be cleared: each row is right of the building without that exit. It names the moment by which a best plan
/// has everybody out, or no plan takes all out and none more people than it says.
pub fn study_keeps_promise()
    ensures { StudyKeepsPromise }
{}

/// A check answers by yes exactly where the block is right, and then no feasible plan of the building has more people out by any period.
pub fn checks_keep_promise()
    ensures { ChecksKeepPromise }
{}

/// A check that ends with status 0 was given a building and a block of a best plan of it. The status is the only premise.
pub fn yes_is_best()
    ensures { YesIsBest }
{}

/// An upgrade writes a text that is read as the building that was read.
pub fn upgrades_keep_promise()
    ensures { UpgradesKeepPromise }
{}

/// A drill writes the summary of a best plan of its building.
pub fn drills_keep_promise()
    ensures { DrillsKeepPromise }
{}

/// A check of an input that `solve` planned, followed by the block that it wrote, says yes.
#[tactic(auto, using(crate::proofs::CheckedLemmas::solved_is_checked))]
pub fn solved_is_checked()
    ensures { SolvedIsChecked }
{}

/// Two runs of `solve` on one input have the same status, the same lines `answer`, `people`, `cleared` and `out`, and the same summary.
pub fn solves_agree()
    ensures { SolvesAgree }
{}

/// To upgrade what an upgrade wrote changes nothing.
#[tactic(auto, using(crate::proofs::TwoRunsLemmas::upgraded_twice))]
pub fn upgraded_twice()
    ensures { UpgradedTwice }
{}

/// A run of `solve` on what an upgrade wrote agrees so with one on the input.
pub fn upgraded_solves_alike()
    ensures { UpgradedSolvesAlike }
{}

/// So does a session with no line after its building that says anything.
pub fn session_solves_alike()
    ensures { SessionSolvesAlike }
{}

/// A drill has one summary, whatever best plan is found.
#[tactic(auto, using(crate::proofs::TwoRunsLemmas::drills_agree))]
pub fn drills_agree()
    ensures { DrillsAgree }
{}
