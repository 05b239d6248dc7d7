//! What is shown of what a run wrote.
use crate::ask::Ask;
use std::io;

// Whether two best plans may differ in such a line: it is of a plan, of its routes or of its work.
fn is_free(line: &str) -> bool {
    ["label ", "move ", "route ", "step ", "work "]
        .iter()
        .any(|word| line.starts_with(*word))
}

// How many people go by a line of a route, and whether they come in at moment 0.
fn routed(line: &str) -> Option<(u32, bool)> {
    let mut fields = line.split(' ');
    if fields.next() != Some("route") {
        return None;
    }
    let people = fields.next()?.parse().ok()?;
    Some((people, fields.nth(1).is_none()))
}

// Whether a row asks for a line: it isn't left out by `@forced`, nor by `@only=`.
fn is_asked(ask: Ask<'_>, line: &str) -> bool {
    if ask.word("@forced").is_some() && is_free(line) {
        return false;
    }
    match ask.word("@only=") {
        Some(words) => words.split(',').any(|word| is_first(word, line)),
        None => true,
    }
}

// Whether a word is the first of a line.
fn is_first(word: &str, line: &str) -> bool {
    line.split(' ').next() == Some(word)
}

// Shows those of some lines that a row asks for: all of them, or the last ones.
fn show_lines(rt: &HostRuntime, ask: Ask<'_>, lines: &str) -> io::Result<()> {
    let last = ask.number("@last=", u32::MAX) as usize;
    let count = lines.split('\n').filter(|line| is_asked(ask, line)).count();
    let before = count.saturating_sub(last);
    for line in lines
        .split('\n')
        .filter(|line| is_asked(ask, line))
        .skip(before)
    {
        println!(rt; "{line}")?;
    }
    Ok(())
}

// Shows the lines of a text. Where the last one doesn't end, a line `\` comes after it.
fn show_whole(rt: &HostRuntime, ask: Ask<'_>, text: &str) -> io::Result<()> {
    if text.is_empty() {
        return Ok(());
    }
    match text.strip_suffix('\n') {
        Some(lines) => show_lines(rt, ask, lines),
        None => {
            show_lines(rt, ask, text)?;
            println!(rt; "\\")
        }
    }
}

// Shows how many people are on routes: those who come in at moment 0, and those who come later.
fn show_routed(rt: &HostRuntime, text: &str) -> io::Result<()> {
    let (mut first, mut later) = (0u32, 0u32);
    for line in text.lines() {
        match routed(line) {
            Some((people, true)) => first = first.saturating_add(people),
            Some((people, false)) => later = later.saturating_add(people),
            None => {}
        }
    }
    println!(rt; "on routes {first} {later}")
}

// How many lines begin with a word.
fn count_first(word: &str, text: &str) -> usize {
    text.lines().filter(|line| is_first(word, line)).count()
}

/// Shows a text, as a row asks for it.
pub fn show_text(rt: &HostRuntime, ask: Ask<'_>, text: &str) -> io::Result<()> {
    if let Some(word) = ask.word("@count=") {
        let count = count_first(word, text);
        return println!(rt; "{count} lines begin with {word}");
    }
    show_whole(rt, ask, text)?;
    if ask.word("@forced").is_some() {
        return show_routed(rt, text);
    }
    Ok(())
}
