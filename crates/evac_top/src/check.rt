//! The mode `check`: a model and a block are read, and the checker's verdict is sent.
ghost use Rattle.std.specs.Prelude.{◌≡◌, ℕ, ◌+◌, [], Some};
ghost use Rattle.evac_law.specs.Building.{IsValid};
ghost use Rattle.line_io.specs.Calls.{AsksAtMost};
ghost use Rattle.line_io.specs.Line.{input_limit};
ghost use Rattle.line_io.specs.declared.limits.TheConstants.{BUFFER_SIZE};
ghost use Rattle.certificate_text.specs.Block.{IsBlockOf};
ghost use Rattle.evac_top.specs.Check.{IsChecked, verdict_status};
ghost use Rattle.evac_top.specs.Runs.{RunsOn};
ghost use Rattle.evac_top.specs.Tells.{TellsTo};
ghost use Rattle.evac_top.specs.declared.words.Mode.TheVariants.{Check};
ghost use Rattle.talk.specs.Statuses.{status_number};

use crate::claim::{Claim, read_claim};
use crate::room::take_room;
use crate::stop::stop;
use crate::verdict::send_verdict;
use certificate_text::Block;
use evac_law::Model;
use line_io::{Out, Sink, Source};
use plan_checker::Verdict;
use std::alloc::Global;
use talk::{Status, status_after};

fn status_of(verdict: Verdict) -> Status
    ensures { status_number result ≡ verdict_status verdict }
{
    match verdict {
        Verdict::Yes => Status::Done,
        _ => Status::Refused,
    }
}

// Sends what the checker says of a block.
fn judge<K: Sink>(
    alloc: Global,
    out: &mut Out,
    sink: &mut K,
    model: &Model,
    block: &Block,
) -> Status
    requires fresh { out.old ≡ [] }
    requires valid { IsValid model.now }
    requires block { IsBlockOf model.now block.now }
    ensures { TellsTo K.Sink (IsChecked model.now block.now) (status_number result) 0 sink.old sink.new }
{
    let Ok(verdict) = plan_checker::check(alloc, model, block) else {
        return Status::NoMemory;
    };
    status_after(send_verdict(out, sink, model, verdict), status_of(verdict))
}

// Sends the same, and drops what was read.
fn judge_claim<K: Sink>(alloc: Global, out: &mut Out, sink: &mut K, claim: Claim) -> Status
    requires fresh { out.old ≡ [] }
    requires valid { IsValid claim.building.model }
    requires block { IsBlockOf claim.building.model claim.block }
    ensures { TellsTo K.Sink (IsChecked claim.building.model claim.block) (status_number result) 0 sink.old sink.new }
{
    let status = judge(alloc, out, sink, &claim.building.model, &claim.block);
    drop(claim);
    status
}

/// Runs the mode. It counts no steps.
pub(crate) fn check<S: Source, K: Sink>(alloc: Global, source: &mut S, sink: &mut K) -> Status
    ensures run { (steps : ℕ) → RunsOn S.Source K.Sink (Some Check) (status_number result) source.old sink.old steps source.new sink.new steps }
    ensures asked { AsksAtMost S.takes (input_limit + BUFFER_SIZE) source.old source.new }
{
    let Ok((mut lines, mut out)) = take_room(alloc) else {
        return Status::NoMemory;
    };
    match read_claim(alloc, &mut lines, source) {
        Ok(claim) => judge_claim(alloc, &mut out, sink, claim),
        Err(fault) => stop(&mut out, sink, fault),
    }
}
