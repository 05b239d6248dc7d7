//! Going back after an edit that was made to print its plan or its cut.
ghost use Rattle.std.specs.Prelude.{◌≡◌, ◌+◌, ℕ, [], ◌≢◌};
ghost use Rattle.edit_session.specs.Sessions.{IsUndone};

use edit_session::Session;
use evac_law::Steps;
use std::sync::ledger::Ledger;

/// Undoes the edit that was made last.
pub(crate) fn go_back<L: Ledger>(session: &mut Session, steps: &mut Steps<L>)
    requires { session.old.state.former ≢ [] }
    ensures undone { IsUndone session.old.state session.new.state }
    ensures refused { session.new.refused ≡ session.old.refused }
    ensures counted { (n : ℕ) × (steps.new ≡ steps.old + n) }
{
    match session.undo(steps) {
        Ok(_) => {}
        // there is an edit to undo
        Err(_) => unreachable!(),
    }
}
