//! A building that is read and planned, with one of its exits shut.
ghost use Rattle.std.specs.Prelude.{◌≡◌, IfOk};
ghost use Rattle.evac_law.specs.Building.{IsValid};
ghost use Rattle.building_table.specs.Names.{NamesFit};
ghost use Rattle.edit_session.specs.Sessions.{IsSolved};
ghost use Rattle.what_if.specs.WhatIf.{AnswersOn, AnswersWhatIf, Describes};

use crate::answer::{Answer, WhatIfFault};
use building_table::{Building, ModelFault, Names, edit_of, read_model};
use edit_session::{BeginFault, EditRefusal, Session};
use evac_law::{Model, NodeName, Standing, Steps};
use line_io::{CleanSource, Lines};
use model_text::NamedEdit;
use std::alloc::Global;
use std::marker::Brand;
use std::sync::ledger::{Blank, Ledger};

// The building of a text.
fn building_of(alloc: Global, text: &[u8]) -> Result<Building, WhatIfFault>
    ensures building { Describes text.now result }
    ensures valid { IfOk result (λ building. IsValid building.model) }
    ensures names { IfOk result (λ building. NamesFit building.names building.model) }
{
    let mut source = CleanSource::new(alloc, text)?;
    let mut lines = Lines::new(alloc)?;
    match read_model(alloc, &mut lines, &mut source) {
        Ok(building) => Ok(building),
        Err(ModelFault::Named { code, line }) => Err(WhatIfFault::Text { code, line }),
        Err(ModelFault::Memory) => Err(WhatIfFault::Memory),
        // the source doesn't fail
        Err(ModelFault::ReadFault) => unreachable!(),
    }
}

// Shuts an exit in a session, and answers what comes of it.
fn shut<L: Ledger>(
    session: &mut Session,
    names: &Names,
    exit: NodeName,
    steps: &mut Steps<L>,
) -> Result<Answer, WhatIfFault>
    requires solved { IsSolved session.old.state }
    requires names { NamesFit names.now session.old.state.model }
    ensures { AnswersOn session.old.state.model names.now exit result }
{
    let before = session.cleared();
    let edit = match edit_of(names, NamedEdit::ShutExit { node: exit }) {
        Ok(edit) => edit,
        Err(fault) => return Err(WhatIfFault::Name(fault)),
    };
    match session.edit(edit, steps) {
        Ok(_) => Ok(Answer::Cleared {
            before,
            after: session.cleared(),
        }),
        Err(EditRefusal::NotCleared { people, most }) => Ok(Answer::NotCleared {
            before,
            people,
            most,
        }),
        Err(EditRefusal::Fault(fault)) => Err(WhatIfFault::Edit(fault)),
    }
}

// Plans a building, and answers what comes of shutting an exit.
fn answer<L: Ledger>(
    alloc: Global,
    model: Model,
    names: &Names,
    exit: NodeName,
    steps: &mut Steps<L>,
) -> Result<Answer, WhatIfFault>
    requires valid { IsValid model }
    requires names { NamesFit names.now model }
    ensures { AnswersOn model names.now exit result }
{
    match Session::begin(alloc, model, steps) {
        Ok(mut session) => {
            let answer = shut(&mut session, names, exit, steps);
            drop(session);
            answer
        }
        Err(BeginFault::NotCleared(short)) => Err(WhatIfFault::NeverCleared { most: short.most }),
        Err(BeginFault::Memory) => Err(WhatIfFault::Memory),
    }
}

// Answers with a counter of steps that nobody reads: contracts bound the work by it, and it takes no byte. A counter belongs to a ledger, and the
// type `L` is that of a blank one.
fn answer_uncounted<L: Ledger>(
    alloc: Global,
    model: Model,
    names: &Names,
    exit: NodeName,
    blank: Blank,
) -> Result<Answer, WhatIfFault>
    requires valid { IsValid model }
    requires names { NamesFit names.now model }
    requires name { blank.name ≡ L.name }
    requires parts { blank.parts ≡ L.parts }
    requires one { blank.parts ≡ 1 }
    ensures { AnswersOn model names.now exit result }
{
    let mut steps = Steps::<L>::new(blank);
    answer(alloc, model, names, exit, &mut steps)
}

/// Reads a building from text up to its `end`, and answers when the last are out, and when with the exit of this name shut.
pub fn what_if(alloc: Global, text: &[u8], exit: NodeName) -> Result<Answer, WhatIfFault>
    ensures { AnswersWhatIf text.now exit result }
{
    let Building { model, names } = building_of(alloc, text)?;
    // a new ledger of one part, since a single counter counts in it; `Brand` is the type for a ledger that nobody else names
    answer_uncounted::<Brand>(alloc, model, &names, exit, Blank::new(1))
}
