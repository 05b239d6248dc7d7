//! Tells what it costs to shut an exit: `exit_cost DS2.1` reads a building from standard input, and says when the last are out with this exit open
//! and with it shut.
//!
//! An example of a program on the libraries. It says what `what_if` answers, whose contract says what that means. The status is 0 where there is an
//! answer, 1 where there is none, and 2 where the word is no name of a node.
#![tactic(auto)]

use evac_law::NodeName;
use model_text::read_name;
use std::io::Read;
use std::process::ExitCode;
use std::{env, io};
use what_if::{Answer, WhatIfFault, what_if};

// The exit that the first word names.
fn exit_of(words: &[String]) -> Option<NodeName> {
    read_name(words.first()?.as_bytes())
}

fn tell(rt: &impl Print, answer: Answer) -> io::Result<()> {
    match answer {
        Answer::Cleared { before, after } => {
            println!(rt;
                "the last are out at moment {before}, and at moment {after} with the exit shut"
            )
        }
        Answer::NotCleared {
            before,
            people,
            most,
        } => {
            println!(rt;
                "the last are out at moment {before}, and at most {most} of {people} by the horizon with the exit shut"
            )
        }
    }
}

fn tell_why_not(rt: &impl Eprint, fault: WhatIfFault) -> io::Result<()> {
    match fault {
        WhatIfFault::Text { code, line } => {
            eprintln!(rt;
                "line {line} of the building is refused with code {}",
                code.number()
            )
        }
        WhatIfFault::NeverCleared { most } => {
            eprintln!(rt; "at most {most} are out by the horizon, with the exit open too")
        }
        WhatIfFault::Name(fault) => eprintln!(rt;
            "the building has no such node: code {}",
            fault.code().number()
        ),
        WhatIfFault::Edit(fault) => eprintln!(rt;
            "it can't be shut: code {}",
            fault.code().number()
        ),
        WhatIfFault::Memory => eprintln!(rt; "there is no memory"),
    }
}

fn main(rt: HostRuntime) -> io::Result<ExitCode> {
    let alloc = rt.alloc();
    let words = env::args(&rt)?.skip(1).collect::<Vec<String>>(alloc)?;
    let Some(exit) = exit_of(&words) else {
        eprintln!(rt; "the name of an exit is wanted, as in exit_cost DS2.1 < office.evac")?;
        return Ok(ExitCode::from(2));
    };
    let mut text = Vec::new(alloc);
    rt.reader().read_to_end(&mut text)?;
    match what_if(alloc, &text, exit) {
        Ok(answer) => {
            tell(&rt, answer)?;
            Ok(ExitCode::SUCCESS)
        }
        Err(fault) => {
            tell_why_not(&rt, fault)?;
            Ok(ExitCode::FAILURE)
        }
    }
}
