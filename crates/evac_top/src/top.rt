//! The top call.
ghost use Rattle.std.specs.Prelude.{◌≡◌, ℕ, ◌+◌, [], None, false, map, string_bytes};
ghost use Rattle.line_io.specs.Calls.{AsksAtMost};
ghost use Rattle.line_io.specs.Line.{input_limit};
ghost use Rattle.line_io.specs.Sides.{Side};
ghost use Rattle.line_io.specs.declared.limits.TheConstants.{BUFFER_SIZE};
ghost use Rattle.evac_top.specs.Answers.{runs_of};
ghost use Rattle.evac_top.specs.Runs.{Runs, RunsOn};
ghost use Rattle.evac_top.specs.Words.{mode_of};
ghost use Rattle.talk.specs.Statuses.{status_number};
ghost use Rattle.evac_top.specs.Accounts.{met_beside};

use crate::check::check;
use crate::drill::drill;
use crate::holding::hold;
use crate::solve::solve;
use crate::upgrade::upgrade;
use crate::words::{Mode, mode_of};
use evac_law::{Code, Steps};
use line_io::{Out, Sink, Source};
use std::alloc::Global;
use std::sync::ledger::Ledger;
use talk::{ReplanTalk, SessionTalk, Status, StudyDesk, send_refusal, status_after};

/// Does what the words ask for, and answers how that ended. The words are those after the program's name.
pub fn run<S: Source, K: Sink, L: Ledger>(
    alloc: Global,
    words: &[String],
    source: &mut S,
    sink: &mut K,
    steps: &mut Steps<L>,
) -> Status
    ensures run { RunsOn S.Source K.Sink (mode_of (map string_bytes words.now)) (status_number result) source.old sink.old steps.old source.new sink.new steps.new }
    ensures untouched { (runs_of (mode_of (map string_bytes words.now))).reads ≡ false → source.new ≡ source.old }

    // each time the source is offered enough room; it is asked no more after its end, and gives so many bytes at most, also where it tells none of them
    ensures asked { AsksAtMost S.takes (input_limit + BUFFER_SIZE) source.old source.new }
{
    match mode_of(words) {
        Some(Mode::Solve(flags)) => solve(alloc, flags, source, sink, steps),
        Some(Mode::Check) => check(alloc, source, sink),
        Some(Mode::Session) => hold::<SessionTalk, S, K, L>(alloc, source, sink, steps),
        Some(Mode::Study) => hold::<StudyDesk, S, K, L>(alloc, source, sink, steps),
        Some(Mode::Replan) => hold::<ReplanTalk, S, K, L>(alloc, source, sink, steps),
        Some(Mode::Upgrade) => upgrade(alloc, source, sink),
        Some(Mode::Drill(number)) => drill(alloc, number, sink, steps),
        None => refuse_words(alloc, sink),
    }
}

// Refuses the words, whatever the source has and the steps are.
fn refuse_words<K: Sink>(alloc: Global, sink: &mut K) -> Status
    ensures { (source : Side) (steps : ℕ) → Runs None (status_number result)
        (met_beside K.Sink source sink.old steps)
        (met_beside K.Sink source sink.new steps) }
{
    let Ok(mut out) = Out::new(alloc) else {
        return Status::NoMemory;
    };
    let sent = send_refusal(&mut out, sink, Code::UnknownWords, 0);
    status_after(sent, Status::WordsRefused)
}
