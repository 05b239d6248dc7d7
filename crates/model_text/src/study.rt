//! What a line of a study commands.
ghost use Rattle.std.specs.Prelude.{◌≡◌};
ghost use Rattle.model_text.specs.Fields.{fields_of};
ghost use Rattle.model_text.specs.Grammar.{no_field};
ghost use Rattle.model_text.specs.StudyCommands.{study_by_word, study_command_of, with_least};

use crate::fault::TextFault;
use crate::fields::{Fields, is_word};
use crate::named_edit::names_and_number;
use crate::statement::is_comment;
use evac_law::NodeName;

/// What a line of a study commands.
#[derive(Clone, Copy)]
pub enum StudyCommand {
    Blank,
    Exits,
    Least {
        from: NodeName,
        to: NodeName,
        by: u32,
    },
    Quit,
}

fn alone<'a>(command: StudyCommand, mut fields: Fields<'a>) -> Result<StudyCommand, TextFault>
    ensures { result ≡ no_field command (fields_of fields.entry) }
{
    match fields.next() {
        None => Ok(command),
        Some(_) => Err(TextFault::FieldCount),
    }
}

fn least<'a>(fields: Fields<'a>) -> Result<StudyCommand, TextFault>
    ensures { result ≡ with_least (fields_of fields.entry) }
{
    let (from, to, by) = names_and_number(fields)?;
    Ok(StudyCommand::Least { from, to, by })
}

fn by_word<'a>(word: &[u8], fields: Fields<'a>) -> Result<StudyCommand, TextFault>
    ensures { result ≡ study_by_word word.now (fields_of fields.entry) }
{
    if is_comment(word) {
        Ok(StudyCommand::Blank)
    } else if is_word(word, b"exits") {
        alone(StudyCommand::Exits, fields)
    } else if is_word(word, b"least") {
        least(fields)
    } else if is_word(word, b"quit") {
        alone(StudyCommand::Quit, fields)
    } else {
        Err(TextFault::UnknownCommand)
    }
}

/// What a line of a study commands, or its first fault.
pub fn read_study_command(line: &[u8]) -> Result<StudyCommand, TextFault>
    ensures { result ≡ study_command_of line.now }
{
    let mut fields = Fields::new(line);
    match fields.next() {
        None => Ok(StudyCommand::Blank),
        Some(word) => by_word(word, fields),
    }
}
