//! A model without one of its exits.
ghost use Rattle.std.specs.Prelude.{◌≡◌, ◌+◌, ℕ};
ghost use Rattle.exit_study.specs.Exits.{IsExitRow, IsOpenExit};

use edit_session::{EditRefusal, Session};
use evac_law::{Edit, Steps};
use std::sync::ledger::Ledger;

/// What a model comes to without an exit: everybody is out by a moment, or at most so many of the people get out by the horizon.
#[derive(Clone, Copy)]
pub enum ExitRow {
    Clears { moment: u16 },
    Short { people: u32, most: u32 },
}

/// What the session's model comes to without an exit. The session stays as it was; after `Short` its refused cut shows it.
pub fn study_exit<L: Ledger>(session: &mut Session, node: u32, steps: &mut Steps<L>) -> ExitRow
    requires { IsOpenExit session.old.state.model node }
    ensures row { IsExitRow session.old.state.model node session.new.refused result }
    ensures unchanged { session.new.state ≡ session.old.state }
    ensures counted { (n : ℕ) × (steps.new ≡ steps.old + n) }
{
    match session.trial(Edit::ShutExit { node }, steps) {
        Ok(moment) => ExitRow::Clears { moment },
        Err(EditRefusal::NotCleared { people, most }) => ExitRow::Short { people, most },
        // an open exit can be shut
        Err(EditRefusal::Fault(_)) => unreachable!(),
    }
}
