//! The rows of a table.
use crate::ask::Ask;
use crate::calls::{Calls, Ran, Run, Side, run_over};
use crate::input::input_of;
use crate::shown::show_text;
use std::alloc::{AllocError, Global};
use std::io;

// What a run wrote, as text.
fn text_of(alloc: Global, ran: &Ran) -> Result<String, AllocError> {
    String::from_utf8_lossy(alloc, ran.sink.bytes())
}

// Shows how a run ends whose source or sink fails at one call, for each call that the whole run makes.
fn show_failing(
    rt: &HostRuntime,
    run: Run<'_>,
    whole: &Ran,
    side: Side,
    piece: u32,
) -> io::Result<()> {
    let mut last = None;
    for call in 1..1000u32 {
        let ran = run_over(rt.alloc(), run, side.failing(piece, call))?;
        let count = ran.sink.bytes().len();
        if last != Some((ran.status, count)) {
            println!(rt;
                "{} {call} fails: {count} bytes, {}",
                side.name(),
                ran.status
            )?;
        }
        if !whole.sink.bytes().starts_with(ran.sink.bytes()) {
            println!(rt; "and other bytes than before")?;
        }
        if ran.status == whole.status {
            break;
        }
        last = Some((ran.status, count));
    }
    Ok(())
}

// Shows what the checker says of the input and the answer after it.
fn show_checked(rt: &HostRuntime, input: &str, answer: &str) -> io::Result<()> {
    let mut whole = String::from_str(rt.alloc(), input)?;
    whole.push_str(answer)?;
    let check = Ask { head: "check" };
    let words = check.words(rt.alloc(), "check")?;
    let run = Run {
        words: &words,
        input: &whole,
    };
    let ran = run_over(rt.alloc(), run, Calls::of(check))?;
    print!(rt; "{}", text_of(rt.alloc(), &ran)?)?;
    println!(rt; "== check {}", ran.status)
}

// Shows what the calls of a run come to that fail in turn, and what the checker says of its answer, where a row asks for that.
fn show_more(rt: &HostRuntime, ask: Ask<'_>, run: Run<'_>, ran: &Ran) -> io::Result<()> {
    for side in [Side::Source, Side::Sink] {
        match ask.number(side.asked(), 0) {
            0 => {}
            piece => show_failing(rt, run, ran, side, piece)?,
        }
    }
    if ask.word("@check").is_some() {
        show_checked(rt, run.input, &text_of(rt.alloc(), ran)?)?;
    }
    Ok(())
}

// Whether a run wrote what the run before it wrote.
fn is_same(before: Option<&Ran>, ran: &Ran) -> bool {
    match before {
        Some(other) => other.sink.bytes() == ran.sink.bytes(),
        None => false,
    }
}

// Shows what a run wrote, but not once more, and its status.
fn show_ran(
    rt: &HostRuntime,
    ask: Ask<'_>,
    mode: &str,
    before: Option<&Ran>,
    ran: &Ran,
) -> io::Result<()> {
    let status = ran.status;
    if is_same(before, ran) {
        return println!(rt; "== {mode} {status}, the same");
    }
    let text = text_of(rt.alloc(), ran)?;
    show_text(rt, ask, &text)?;
    println!(rt; "== {mode} {status}")
}

// Shows a run with the words of a row in one mode, and what else the row asks for.
fn show_run(
    rt: &HostRuntime,
    ask: Ask<'_>,
    mode: &str,
    input: &str,
    before: Option<&Ran>,
) -> io::Result<Ran> {
    let words = ask.words(rt.alloc(), mode)?;
    let run = Run {
        words: &words,
        input,
    };
    let ran = run_over(rt.alloc(), run, Calls::of(ask))?;
    show_ran(rt, ask, mode, before, &ran)?;
    show_more(rt, ask, run, &ran)?;
    Ok(ran)
}

// Shows the runs of a row.
fn show_row(rt: &HostRuntime, folder: &str, parts: &[&str]) -> io::Result<()> {
    let Some(head) = parts.first() else {
        return Ok(());
    };
    let ask = Ask { head };
    let input = input_of(rt, folder, &parts[1..])?;
    let mut before = None;
    for mode in ask.modes().split(',') {
        let ran = show_run(rt, ask, mode, &input, before.as_ref())?;
        before = Some(ran);
    }
    Ok(())
}

// Adds the parts of a line to others.
fn push_parts<'a>(parts: &mut Vec<&'a str>, line: &'a str) -> Result<(), AllocError> {
    for part in line.split(" | ") {
        parts.push(part)?;
    }
    Ok(())
}

/// Shows a table, and after each row its runs. The texts that rows name lie in a folder.
pub fn show_table(rt: &HostRuntime, folder: &str, table: &str) -> io::Result<()> {
    let mut parts: Vec<&str> = Vec::new(rt.alloc());
    for line in table.lines() {
        let more = line.strip_prefix("| ");
        if more.is_none() {
            show_row(rt, folder, &parts)?;
            parts.clear();
        }
        println!(rt; "{line}")?;
        if !line.is_empty() && !line.starts_with('#') {
            push_parts(&mut parts, more.unwrap_or(line))?;
        }
    }
    show_row(rt, folder, &parts)
}
