//! Plans how a building empties: `evacplan solve` reads a model from standard input and writes the answer to standard output.
//!
//! The texts are those of `evac_top::run`, and the status is the number of what it answers. Where the system can't give the words, nothing is
//! written: the status is that of `NoMemory`, and where a word isn't UTF-8 that of `NoWords`.
#![tactic(auto)]

ghost use Rattle.std.specs.Prelude.{◌≡◌, ℕ, ◌+◌, false, map, string_bytes};
ghost use Rattle.line_io.specs.Calls.{AsksAtMost};
ghost use Rattle.line_io.specs.Line.{input_limit};
ghost use Rattle.line_io.specs.declared.limits.TheConstants.{BUFFER_SIZE};
ghost use Rattle.evac_top.specs.Answers.{runs_of};
ghost use Rattle.evac_top.specs.Runs.{RunsOn};
ghost use Rattle.evac_top.specs.Words.{mode_of};
ghost use Rattle.talk.specs.Statuses.{status_number};

use evac_law::Steps;
use evac_top::run;
use line_io::{Sink, Source, StdSink, StdSource};
use std::alloc::{AllocError, Global};
use std::marker::Brand;
use std::process::ExitCode;
use std::sync::ledger::{Blank, Ledger};
use std::{env, io};
use talk::Status;

// Runs with a counter of steps that nobody reads. It begins at 0.
fn run_uncounted<S: Source, K: Sink, L: Ledger>(
    alloc: Global,
    words: &[String],
    source: &mut S,
    sink: &mut K,
    blank: Blank,
) -> Status
    requires name { blank.name ≡ L.name }
    requires parts { blank.parts ≡ L.parts }
    requires one { blank.parts ≡ 1 }
    ensures run { (steps : ℕ) × RunsOn S.Source K.Sink (mode_of (map string_bytes words.now)) (status_number result) source.old sink.old 0 source.new sink.new steps }
    ensures untouched { (runs_of (mode_of (map string_bytes words.now))).reads ≡ false → source.new ≡ source.old }
    ensures asked { AsksAtMost S.takes (input_limit + BUFFER_SIZE) source.old source.new }
{
    let mut steps: Steps<L> = Steps::new(blank);
    run(alloc, words, source, sink, &mut steps)
}

fn main(rt: HostRuntime) -> ExitCode {
    let words = match env::args(&rt) {
        Ok(args) => args.skip(1).collect::<Vec<String>>(rt.alloc()),
        Err(error) if error.kind() == io::ErrorKind::InvalidData => {
            return ExitCode::from(Status::NoWords.number());
        }
        Err(_) => Err(AllocError),
    };
    let Ok(words) = words else {
        return ExitCode::from(Status::NoMemory.number());
    };
    let mut source = StdSource::new(rt.reader());
    let mut sink = StdSink::new(io::writer(&rt));
    let status = run_uncounted::<_, _, Brand>(
        rt.alloc(),
        &words,
        &mut source,
        &mut sink,
        Blank::new(1),
    );
    ExitCode::from(status.number())
}
