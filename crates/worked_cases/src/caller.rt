//! The examples of a caller.
ghost use Rattle.std.specs.Prelude.{◌≡◌};
ghost use Rattle.evac_law.specs.Building.{IsValid};
ghost use Rattle.building_table.specs.Names.{NamesFit};

use building_table::{Building, NameFault, Names};
use certificate_text::write_answer;
use edit_session::Session;
use evac_law::{Code, EditFault, Steps};
use line_io::{MemSink, Out};
use model_text::read_name;
use plan_checker::Verdict;
use sample_buildings::{OFFICE, ONE_ROOM, TRAPPED, building_of};
use std::alloc::Global;
use std::marker::Brand;
use std::process::Abort;
use std::sync::ledger::{Blank, Ledger};
use std::test::Fail;
use what_if::{Answer, WhatIfFault, check_plan, what_if};

const CLEARED: Answer = Answer::Cleared {
    before: 28,
    after: 50,
};

const NOT_CLEARED: Answer = Answer::NotCleared {
    before: 28,
    people: 240,
    most: 180,
};

const NO_END: WhatIfFault = WhatIfFault::Text {
    code: Code::MissingEnd,
    line: 3,
};

// A text, a node in it, and what is answered of shutting that.
const ANSWERS: &[(&str, &str, Result<Answer, WhatIfFault>)] = &[
    (OFFICE, "DS2.1", Ok(CLEARED)),
    (OFFICE, "DS1.1", Ok(NOT_CLEARED)),
    (
        OFFICE,
        "DS3.1",
        Err(WhatIfFault::Name(NameFault::UnknownNode)),
    ),
    (OFFICE, "WP1.1", Err(WhatIfFault::Edit(EditFault::NotExit))),
    (TRAPPED, "DS1.1", Err(WhatIfFault::NeverCleared { most: 0 })),
    ("evacplan 1\n# no more\n", "DS1.1", Err(NO_END)),
];

#[test]
fn an_exit_is_shut(rt: HostRuntime) -> Result<(), Fail> {
    for (text, name, want) in ANSWERS {
        let exit = read_name(name.as_bytes()).ok_or(*name)?;
        assert!(rt;
            what_if(rt.alloc(), text.as_bytes(), exit) == *want,
            "{name}"
        );
    }
    Ok(())
}

// Writes the block of a session's plan.
fn put_block(sink: &mut MemSink, alloc: Global, session: &Session) -> Result<(), Fail> {
    let mut out = Out::new(alloc)?;
    let model = session.model();
    write_answer(&mut out, sink, model, 0, session, session.labels())?;
    out.flush(sink)?;
    Ok(())
}

const BLOCK: &str =
    "answer 0\npeople 3\ncleared 2\nout 0 0\nout 1 2\nout 2 3\nlabel WP1.1 0 2\nmove 0 WP1.1 DS1.1 2\nmove 1 WP1.1 DS1.1 1\nend\n";

// A session has nothing to undo, its plan is right, and this is its block.
fn check_session(
    rt: &(impl Abort + AllocGlobal),
    session: &Session,
    names: &Names,
) -> Result<(), Fail>
    requires { NamesFit names.now session.now.state.model }
{
    assert!(rt; session.kept() == 0 && session.net().horizon() == 20);
    assert!(rt; check_plan(rt.alloc(), session, names)? == Verdict::Yes);
    let mut sink = MemSink::new(rt.alloc(), 200, 9, &[])?;
    put_block(&mut sink, rt.alloc(), session)?;
    assert!(rt; sink.bytes() == BLOCK.as_bytes());
    Ok(())
}

// Checks a session on a building.
fn check_begun<L: Ledger>(
    rt: &(impl Abort + AllocGlobal),
    building: Building,
    blank: Blank,
) -> Result<(), Fail>
    requires valid { IsValid building.model }
    requires names { NamesFit building.names building.model }
    requires name { blank.name ≡ L.name }
    requires parts { blank.parts ≡ L.parts }
    requires one { blank.parts ≡ 1 }
{
    let Building { model, names } = building;
    let mut steps = Steps::<L>::new(blank);
    match Session::begin(rt.alloc(), model, &mut steps) {
        Ok(session) => check_session(rt, &session, &names),
        Err(_) => panic!(rt; "the building has a plan"),
    }
}

#[test]
fn the_plan_of_a_room_is_right(rt: HostRuntime) -> Result<(), Fail> {
    let building = building_of(rt.alloc(), ONE_ROOM)?;
    check_begun::<Brand>(&rt, building, Blank::new(1))
}
