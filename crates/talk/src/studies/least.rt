//! The least rate of an arc, with what proves it.
ghost use Rattle.std.specs.Prelude.{◌≡◌, ◌+◌, ◌<◌, ◌≤◌, ℕ, List, length, ◌++◌};
ghost use Rattle.evac_law.specs.Building.{IsValid};
ghost use Rattle.evac_law.specs.Certificates.{IsTableOf, label_cut};
ghost use Rattle.line_io.specs.Writer.{Writes};
ghost use Rattle.certificate_text.specs.BlockText.{in_lines};
ghost use Rattle.report_text.specs.ReportText.{cut_line};
ghost use Rattle.edit_session.specs.Sessions.{IsSolved, kept_limit};
ghost use Rattle.exit_study.specs.Rates.{IsEnough, IsLeastRate, IsNoRate, at_rate};
ghost use Rattle.exit_study.specs.declared.rates.Least.{Least as LeastValue};
ghost use Rattle.talk.specs.Stays.{StaysSolved};
ghost use Rattle.talk.specs.Trials.{IsRateTrial};
ghost use Rattle.talk.specs.StudyTexts.{SaysCut, SaysCutBelow, SaysLeast, SaysMoves, SaysNever, SaysRate};

use crate::studies::going_back::go_back;
use crate::studies::lines::{put_least, put_never};
use crate::studies::trial::Trial;
use certificate_text::{put_end, put_ins, put_moves};
use cut_witness::cut_value;
use edit_session::{EditRefusal, Session};
use evac_law::limits::RATE_LIMIT;
use evac_law::{Edit, Labels, Model, Steps};
use exit_study::{Least, least_rate};
use line_io::{Sink, Writer};
use report_text::put_cut_line;
use std::sync::ledger::Ledger;

// Puts the moves of a best plan at a rate that is enough.
fn put_moves_at<K: Sink, L: Ledger>(
    session: &mut Session,
    writer: &mut Writer<'_, K>,
    steps: &mut Steps<L>,
    trial: Trial,
)
    requires solved { IsSolved session.old.state }
    requires trial { IsRateTrial session.old.state.model trial }
    requires room { length session.old.state.former < kept_limit }
    requires enough { IsEnough session.old.state.model trial.arc trial.by trial.rate }
    ensures text { (text : List ℕ) × SaysMoves (at_rate session.old.state.model trial.arc trial.rate) trial.by text × Writes K.Sink writer.old text writer.new }
    ensures stays { StaysSolved session.old.state session.new.state }
    ensures counted { (n : ℕ) × (steps.new ≡ steps.old + n) }
{
    let Trial { arc, rate, .. } = trial;
    match session.edit(Edit::Rate { arc, rate }, steps) {
        Ok(_) => {
            put_moves(writer, session.model(), session);
            go_back(session, steps);
        }
        // a rate within the limit can be set, and at one that is enough everybody can get out
        Err(_) => unreachable!(),
    }
}

// Puts the cut of labels at moment k, with its value.
fn put_cut<K: Sink>(writer: &mut Writer<'_, K>, model: &Model, labels: &Labels, k: u16, value: u64)
    requires valid { IsValid model.now }
    requires table { IsTableOf model.now labels.now }
    ensures { Writes K.Sink writer.old (cut_line k value ++ in_lines model.now (label_cut model.now labels.now k)) writer.new }
{
    put_cut_line(writer, k, value);
    put_ins(writer, model, labels, k);
}

// Puts a cut that shows that a rate isn't enough.
fn put_cut_at<K: Sink, L: Ledger>(
    session: &mut Session,
    writer: &mut Writer<'_, K>,
    steps: &mut Steps<L>,
    trial: Trial,
)
    requires solved { IsSolved session.old.state }
    requires trial { IsRateTrial session.old.state.model trial }
    requires room { length session.old.state.former < kept_limit }
    requires slow { ¬ IsEnough session.old.state.model trial.arc trial.by trial.rate }
    ensures text { (text : List ℕ) × SaysCut (at_rate session.old.state.model trial.arc trial.rate) trial.by text × Writes K.Sink writer.old text writer.new }
    ensures stays { StaysSolved session.old.state session.new.state }
    ensures counted { (n : ℕ) × (steps.new ≡ steps.old + n) }
{
    let Trial { arc, rate, .. } = trial;
    match session.edit(Edit::Rate { arc, rate }, steps) {
        Ok(_) => {
            let model = session.model();
            let value = cut_value(model, session.labels(), trial.by);
            put_cut(writer, model, session.labels(), trial.by, value);
            go_back(session, steps);
        }
        Err(EditRefusal::NotCleared { most, .. }) => {
            let model = session.model();
            let labels = session.refused_cut();
            put_cut(writer, model, labels, model.horizon, u64::from(most));
        }
        // a rate within the limit can be set
        Err(EditRefusal::Fault(_)) => unreachable!(),
    }
}

// Puts the cut of the rate below one, where there is a rate below it.
fn put_cut_below<K: Sink, L: Ledger>(
    session: &mut Session,
    writer: &mut Writer<'_, K>,
    steps: &mut Steps<L>,
    trial: Trial,
)
    requires solved { IsSolved session.old.state }
    requires trial { IsRateTrial session.old.state.model trial }
    requires room { length session.old.state.former < kept_limit }
    requires least { IsLeastRate session.old.state.model trial.arc trial.by trial.rate }
    ensures text { (text : List ℕ) × SaysCutBelow session.old.state.model trial.arc trial.by trial.rate text × Writes K.Sink writer.old text writer.new }
    ensures stays { StaysSolved session.old.state session.new.state }
    ensures counted { (n : ℕ) × (steps.new ≡ steps.old + n) }
{
    if trial.rate > 0 {
        let rate = trial.rate - 1;
        put_cut_at(session, writer, steps, Trial { rate, ..trial });
    };
}

// Puts the least rate of an arc.
fn put_rate<K: Sink, L: Ledger>(
    session: &mut Session,
    writer: &mut Writer<'_, K>,
    steps: &mut Steps<L>,
    trial: Trial,
)
    requires trial { IsRateTrial session.old.state.model trial }
    requires room { length session.old.state.former < kept_limit }
    requires least { IsLeastRate session.old.state.model trial.arc trial.by trial.rate }
    ensures text { (text : List ℕ) × SaysRate session.old.state.model trial.arc trial.by trial.rate text × Writes K.Sink writer.old text writer.new }
    ensures stays { StaysSolved session.old.state session.new.state }
    ensures counted { (n : ℕ) × (steps.new ≡ steps.old + n) }
{
    put_least(writer, session.model(), trial);
    put_moves_at(session, writer, steps, trial);
    put_cut_below(session, writer, steps, trial);
    put_end(writer);
}

// Puts that no rate of an arc is enough.
#[tactic(auto, unfolding(evac_law::specs::Limits::rate_limit))]
fn put_no_rate<K: Sink, L: Ledger>(
    session: &mut Session,
    writer: &mut Writer<'_, K>,
    steps: &mut Steps<L>,
    arc: u32,
    by: u16,
)
    requires arc { arc < length session.old.state.model.arcs }
    requires by { by ≤ session.old.state.model.horizon }
    requires room { length session.old.state.former < kept_limit }
    requires none { IsNoRate session.old.state.model arc by }
    ensures text { (text : List ℕ) × SaysNever session.old.state.model arc by text × Writes K.Sink writer.old text writer.new }
    ensures stays { StaysSolved session.old.state session.new.state }
    ensures counted { (n : ℕ) × (steps.new ≡ steps.old + n) }
{
    put_never(writer, session.model(), arc, by);
    let rate = RATE_LIMIT;
    put_cut_at(session, writer, steps, Trial { arc, rate, by });
    put_end(writer);
}

/// Puts the least rate of an arc at which everybody is out of the session's model by a moment, with what proves it.
pub(crate) fn put_least_rate<K: Sink, L: Ledger>(
    session: &mut Session,
    writer: &mut Writer<'_, K>,
    steps: &mut Steps<L>,
    arc: u32,
    by: u16,
)
    requires arc { arc < length session.old.state.model.arcs }
    requires by { by ≤ session.old.state.model.horizon }
    requires room { length session.old.state.former < kept_limit }
    ensures text { (least : LeastValue) × ((text : List ℕ) × SaysLeast session.old.state.model arc by least text × Writes K.Sink writer.old text writer.new) }
    ensures stays { StaysSolved session.old.state session.new.state }
    ensures counted { (n : ℕ) × (steps.new ≡ steps.old + n) }
{
    match least_rate(session, arc, by, steps) {
        Least::Rate { rate } => put_rate(session, writer, steps, Trial { arc, rate, by }),
        Least::Never => put_no_rate(session, writer, steps, arc, by),
    }
}
