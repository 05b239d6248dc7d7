//! A session whose plan is carried out step by step: what is made stays, and the rest is planned anew.
ghost use Rattle.std.specs.Prelude.{◌≡◌, ℕ, ◌+◌, ◌≤◌, ◌&&◌, nat_lt, IfOk, IsFalse, OnErr};
ghost use Rattle.evac_law.specs.Building.{IsValid};
ghost use Rattle.evac_law.specs.Edits.{IsEditOf};
ghost use Rattle.replan.specs.Kept.{IsLeftAfter};
ghost use Rattle.replan.specs.Replans.{AdvanceEnds, IsAdvanced, ReplanBegins, ReplanEdits, ReplanUndoes, gone_at, is_bad_moment, is_committed, is_of_people};

use crate::faults::{AdvanceFault, ReplanRefusal};
use crate::gone::gone_after;
use crate::rest::rest_of;
use edit_session::{BeginFault, Session, UndoRefusal, Work};
use evac_law::{Edit, Model, Steps};
use plan_layout::Layout;
use std::alloc::{AllocError, Global};
use std::sync::ledger::Ledger;

/// A session, the moment up to which its plans were carried out, and who is out by each moment by what was carried out.
#[derive(Drop)]
pub struct Replan {
    session: Session,
    moment: u16,
    gone: Vec<u32>,
}

impl std::marker::Model for Replan {
    ghost use Rattle.replan.specs.Replans.{ReplanView};
    ghost use Rattle.replan.specs.Kept.{IsReplan};

    ghost Value = { ReplanView };

    ghost view = { λ r. record { session = r.session; moment = r.moment; gone = r.gone.items } };

    ghost invariant = { λ r. IsReplan r.session.state r.moment r.gone.items };
}

// Whether a plan can't be carried out up to a moment: to 0, past the horizon, or to before where plans were carried out to.
fn is_bad_moment(moment: u16, horizon: u16, last: u16) -> bool
    ensures { result ≡ is_bad_moment moment horizon last }
{
    moment == 0 || moment > horizon || moment < last
}

// Whether an edit sets how many people are in the nodes.
fn is_of_people(edit: Edit) -> bool
    ensures { result ≡ is_of_people edit }
{
    matches!(
        edit,
        Edit::Shift { .. } | Edit::Enter { .. } | Edit::Leave { .. }
    )
}

// Whether an edit comes too late, once plans were carried out up to a moment.
fn is_committed(last: u16, edit: Edit) -> bool
    ensures { result ≡ (nat_lt 0 last && is_of_people edit) }
{
    last > 0 && is_of_people(edit)
}

// Puts a replan in the place of another.
fn put(place: &mut Replan, next: Replan)
    ensures { place.new ≡ next }
{
    *place = next;
}

impl Replan {
    /// A replan on a model, with its best plan and nothing carried out; or the model back, where not everybody can get out.
    pub fn begin<L: Ledger>(
        alloc: Global,
        model: Model,
        steps: &mut Steps<L>,
    ) -> Result<Replan, BeginFault>
        requires { IsValid model }
        ensures { (n : ℕ) × (steps.new ≡ steps.old + n) × ReplanBegins model result n }
    {
        let moments = model.horizon as usize + 1;
        let Ok(gone) = vec![in alloc; 0; moments] else {
            return Err(BeginFault::Memory);
        };
        let session = Session::begin(alloc, model, steps)?;
        Ok(Replan {
            session,
            moment: 0,
            gone,
        })
    }

    // What is left of the model once the plan is carried out up to a moment, and who is out by each moment then.
    fn left_after(&self, alloc: Global, moment: u16) -> Result<(Model, Vec<u32>), AllocError>
        requires { IsFalse (is_bad_moment moment self.now.session.state.model.horizon self.now.moment) }
        ensures { IfOk result (λ r. IsLeftAfter self.now moment r.0 r.1.items) }
    {
        let layout = Layout::new(alloc, self.session.model())?;
        let gone = gone_after(alloc, self.gone.as_slice(), &layout, &self.session, moment)?;
        let rest = rest_of(alloc, &layout, &self.session, moment)?;
        Ok((rest, gone))
    }

    // The replan once the plan is carried out up to a moment. It takes all its memory before anything is changed.
    fn carried_out<L: Ledger>(
        &self,
        alloc: Global,
        moment: u16,
        steps: &mut Steps<L>,
    ) -> Result<Replan, AllocError>
        requires { IsFalse (is_bad_moment moment self.now.session.state.model.horizon self.now.moment) }
        ensures { (n : ℕ) × (steps.new ≡ steps.old + n) × IfOk result (λ r. IsAdvanced self.now moment r × (n ≡ r.session.state.work.pushes)) }
    {
        let (rest, gone) = self.left_after(alloc, moment)?;
        match Session::begin(alloc, rest, steps) {
            Ok(session) => Ok(Replan {
                session,
                moment,
                gone,
            }),
            Err(BeginFault::Memory) => Err(AllocError),
            // the plan takes everybody out of what is left
            Err(BeginFault::NotCleared(_)) => unreachable!(),
        }
    }

    /// Carries the plan out up to a moment, and plans what is left from there on.
    pub fn advance<L: Ledger>(
        &mut self,
        alloc: Global,
        moment: u16,
        steps: &mut Steps<L>,
    ) -> Result<(), AdvanceFault>
        ensures ends { (n : ℕ) × (steps.new ≡ steps.old + n) × AdvanceEnds self.old moment result self.new n }
        ensures unchanged { OnErr result (self.new ≡ self.old) }
    {
        let horizon = self.session.model().horizon;
        if is_bad_moment(moment, horizon, self.moment) {
            return Err(AdvanceFault::BadMoment);
        }
        let Ok(next) = self.carried_out(alloc, moment, steps) else {
            return Err(AdvanceFault::Memory);
        };
        put(self, next);
        Ok(())
    }

    /// Makes an edit and repairs the plan. Once a plan was carried out, nobody is put into nodes or taken from them.
    pub fn edit<L: Ledger>(
        &mut self,
        edit: Edit,
        steps: &mut Steps<L>,
    ) -> Result<Work, ReplanRefusal>
        requires { IsEditOf self.old.session.state.model edit }
        ensures { (n : ℕ) × (steps.new ≡ steps.old + n) × ReplanEdits self.old edit result self.new n }
    {
        if is_committed(self.moment, edit) {
            return Err(ReplanRefusal::Committed);
        }
        self.session.edit(edit, steps).map_err(ReplanRefusal::Edit)
    }

    /// Goes back to the model before the last kept edit, no further than to where the plan was last carried out to.
    pub fn undo<L: Ledger>(&mut self, steps: &mut Steps<L>) -> Result<Work, UndoRefusal>
        ensures { (n : ℕ) × (steps.new ≡ steps.old + n) × ReplanUndoes self.old result self.new n }
    {
        self.session.undo(steps)
    }

    /// The session that stands.
    pub fn session(&self) -> &Session
        ensures { result.now ≡ self.now.session }
    {
        &self.session
    }

    /// The moment up to which plans were carried out, or 0.
    pub fn moment(&self) -> u16
        ensures { result ≡ self.now.moment }
    {
        self.moment
    }

    /// The people who are out by a moment by what was carried out.
    pub fn gone(&self, by: u16) -> u32
        requires { by ≤ self.now.session.state.model.horizon }
        ensures { result ≡ gone_at self.now by }
    {
        self.gone[by as usize]
    }
}
