//! The input of a row's run.
use std::alloc::{AllocError, Global};
use std::{fs, io};

// Adds a line to a text. In it `\n`, `\r`, `\t` and `\0` stand for these bytes, and a `\` at its end takes its LF away.
fn push_line(text: &mut String, line: &str) -> Result<(), AllocError> {
    if line.ends_with('\\') {
        return push_bytes(text, line);
    }
    push_bytes(text, line)?;
    text.push_str("\n")
}

// Adds the bytes of a line to a text.
fn push_bytes(text: &mut String, line: &str) -> Result<(), AllocError> {
    let mut pieces = line.split('\\');
    text.push_str(pieces.next().unwrap_or(""))?;
    for piece in pieces {
        push_escaped(text, piece)?;
    }
    Ok(())
}

// Adds the byte that the first letter of a piece names to a text, and the rest of the piece.
fn push_escaped(text: &mut String, piece: &str) -> Result<(), AllocError> {
    for (letter, byte) in [("n", "\n"), ("r", "\r"), ("t", "\t"), ("0", "\0")] {
        if let Some(rest) = piece.strip_prefix(letter) {
            text.push_str(byte)?;
            return text.push_str(rest);
        }
    }
    text.push_str(piece)
}

// The number of a line and what comes in its place, where a part begins so.
fn changed(part: &str) -> Option<(usize, &str)> {
    let (number, line) = part.split_once(':')?;
    let number = number.parse().ok()?;
    Some((number, line.strip_prefix(" ").unwrap_or(line)))
}

// A text with one line changed; an empty line is left out.
fn with_line(alloc: Global, lines: &str, number: usize, line: &str) -> Result<String, AllocError> {
    let mut text = String::new(alloc);
    for (place, old) in lines.lines().enumerate() {
        if place + 1 != number {
            text.push_str(old)?;
            text.push_str("\n")?;
        } else if !line.is_empty() {
            push_line(&mut text, line)?;
        }
    }
    Ok(text)
}

// A text with one more part.
fn with_part(rt: &HostRuntime, folder: &str, mut text: String, part: &str) -> io::Result<String> {
    if let Some((number, line)) = changed(part) {
        return Ok(with_line(rt.alloc(), &text, number, line)?);
    }
    match part.strip_prefix("<") {
        Some(name) => {
            let path = format!(in rt.alloc(); "{folder}/{name}")?;
            text.push_str(&fs::read_to_string(rt, &path)?)?;
        }
        None => push_line(&mut text, part)?,
    }
    Ok(text)
}

/// The input of the parts of a row. `<one_room` is a file of the folder, `7: end` changes line 7 of what comes before it (or leaves it out,
/// where nothing follows the colon), and any other part is a line.
pub fn input_of(rt: &HostRuntime, folder: &str, parts: &[&str]) -> io::Result<String> {
    let mut text = String::new(rt.alloc());
    for part in parts {
        text = with_part(rt, folder, text, part)?;
    }
    Ok(text)
}
