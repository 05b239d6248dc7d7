//! What a line of a session commands.
ghost use Rattle.std.specs.Prelude.{◌≡◌, ◌≢◌, IfErr};
ghost use Rattle.model_text.specs.Commands.{alone, command_by_word, command_of, with_number};
ghost use Rattle.model_text.specs.Fields.{fields_of};

use crate::fault::TextFault;
use crate::field_values::{number, one};
use crate::fields::{Fields, is_word};
use crate::named_edit::{NamedEdit, read_edit};
use crate::statement::is_comment;

/// A report on the session's plan.
#[derive(Clone, Copy)]
pub enum Report {
    Routes,
    Clearing,
    Bottlenecks,
    Summary,
}

/// What a line of a session commands.
#[derive(Clone, Copy)]
pub enum Command {
    Blank,
    Edit(NamedEdit),
    Undo,
    Cut { period: u32 },
    Report(Report),
    Work,
    Quit,
}

fn alone<'a>(command: Command, mut fields: Fields<'a>) -> Result<Command, TextFault>
    ensures { result ≡ alone command (fields_of fields.entry) }
{
    match fields.next() {
        None => Ok(command),
        Some(_) => Err(TextFault::FieldCount),
    }
}

fn cut<'a>(fields: Fields<'a>) -> Result<Command, TextFault>
    ensures { result ≡ with_number Command.Cut (fields_of fields.entry) }
{
    let period = number(one(fields)?)?;
    Ok(Command::Cut { period })
}

// What a line commands by its first word: what no other word says is an edit.
fn by_word<'a>(word: &[u8], fields: Fields<'a>) -> Result<Command, TextFault>
    ensures { result ≡ command_by_word word.now (fields_of fields.entry) }
{
    if is_comment(word) {
        Ok(Command::Blank)
    } else if is_word(word, b"undo") {
        alone(Command::Undo, fields)
    } else if is_word(word, b"cut") {
        cut(fields)
    } else if is_word(word, b"routes") {
        alone(Command::Report(Report::Routes), fields)
    } else if is_word(word, b"clearing") {
        alone(Command::Report(Report::Clearing), fields)
    } else if is_word(word, b"bottlenecks") {
        alone(Command::Report(Report::Bottlenecks), fields)
    } else if is_word(word, b"summary") {
        alone(Command::Report(Report::Summary), fields)
    } else if is_word(word, b"work") {
        alone(Command::Work, fields)
    } else if is_word(word, b"quit") {
        alone(Command::Quit, fields)
    } else {
        Ok(Command::Edit(read_edit(word, fields)?))
    }
}

/// What a line of a session commands, or its first fault.
pub fn read_command(line: &[u8]) -> Result<Command, TextFault>
    ensures exact { result ≡ command_of line.now }
    ensures no_statement { IfErr result (λ fault. fault ≢ TextFault.UnknownWord) }
    ensures no_range { IfErr result (λ fault. fault ≢ TextFault.OutOfRange) }
{
    let mut fields = Fields::new(line);
    match fields.next() {
        None => Ok(Command::Blank),
        Some(word) => by_word(word, fields),
    }
}
