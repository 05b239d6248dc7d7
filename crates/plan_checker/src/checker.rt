//! The check of a block.
ghost use Rattle.std.specs.Prelude.{◌≡◌, ◌↔◌, IfOk};
ghost use Rattle.evac_law.specs.Building.{IsValid};
ghost use Rattle.certificate_text.specs.Block.{IsBlockOf};
ghost use Rattle.plan_checker.specs.VerdictLaws.{IsOptimal};
ghost use Rattle.plan_checker.specs.Verdicts.{IsRight, IsVerdict};

use crate::curve::{curve_of, first_wrong_out, is_all_out};
use crate::cuts::first_wrong_cut;
use crate::holds::first_broken_hold;
use crate::rates::first_broken_rate;
use crate::verdict::Verdict;
use certificate_text::Block;
use evac_law::Model;
use std::alloc::{AllocError, Global};

fn first_failing(alloc: Global, model: &Model, block: &Block) -> Result<Verdict, AllocError>
    requires valid { IsValid model.now }
    requires block { IsBlockOf model.now block.now }
    ensures { IfOk result (IsVerdict model.now block.now) }
{
    let moves = block.moves.as_slice();
    let last = block.cleared;
    if block.people != model.people() {
        return Ok(Verdict::PeopleWrong);
    }
    if let Some((moment, arc)) = first_broken_rate(model, moves, last) {
        return Ok(Verdict::RateBroken { moment, arc });
    }
    if let Some((moment, node)) = first_broken_hold(alloc, model, moves, last)? {
        return Ok(Verdict::HeldBroken { moment, node });
    }
    let curve = curve_of(alloc, model, moves, last)?;
    if !is_all_out(model, moves, last, &curve) {
        return Ok(Verdict::NotAllOut);
    }
    if let Some(period) = first_wrong_out(&curve, block.outs.as_slice()) {
        return Ok(Verdict::OutWrong { period });
    }
    if let Some(period) = first_wrong_cut(alloc, model, &block.labels, &curve, last)? {
        return Ok(Verdict::CutWrong { period });
    }
    Ok(Verdict::Yes)
}

/// The first part of a block that fails, or yes. It takes time in proportion to the nodes and arcs at all moments.
pub fn check(alloc: Global, model: &Model, block: &Block) -> Result<Verdict, AllocError>
    requires valid { IsValid model.now }
    requires block { IsBlockOf model.now block.now }
    ensures verdict { IfOk result (IsVerdict model.now block.now) }
    ensures yes { IfOk result (λ v. (v ≡ Verdict.Yes) ↔ IsRight model.now block.now) }
    ensures optimal { IfOk result (λ v. v ≡ Verdict.Yes → IsOptimal model.now block.now.moves block.now.cleared) }
{
    first_failing(alloc, model, block)
}
