//! What a line of a model says.
ghost use Rattle.std.specs.Prelude.{◌≡◌, ◌≢◌, Err, IfErr, IfOk, if◌then◌else◌};
ghost use Rattle.model_text.specs.Fields.{fields_of};
ghost use Rattle.model_text.specs.Grammar.{IsSaid, by_word, end, header, is_comment, statement_of};
ghost use Rattle.model_text.specs.Readings.{is_unknown, later_statement};
ghost use Rattle.model_text.specs.Reads.{Reads, said};

use crate::fault::TextFault;
use crate::field_values::{number, one};
use crate::fields::{Fields, is_word};
use crate::part::{Part, read_part};

/// What a line of a model says.
#[derive(Clone, Copy)]
pub enum Statement<'a> {
    Blank,
    Header { version: u32 },
    Part(Part<'a>),
    End,
}

fn header<'a>(fields: Fields<'a>) -> Result<Statement<'a>, TextFault>
    ensures { Reads result (header (fields_of fields.entry)) }
{
    let version = number(one(fields)?)?;
    Ok(Statement::Header { version })
}

fn end<'a>(mut fields: Fields<'a>) -> Result<Statement<'a>, TextFault>
    ensures { Reads result (end (fields_of fields.entry)) }
{
    match fields.next() {
        None => Ok(Statement::End),
        Some(_) => Err(TextFault::FieldCount),
    }
}

/// Whether a first field makes its line a comment.
pub fn is_comment(word: &[u8]) -> bool
    ensures { result ≡ is_comment word.now }
{
    match word {
        [] => true,
        [b, ..] => *b == b'#',
    }
}

// What a line says by its first word.
fn by_word<'a>(word: &[u8], fields: Fields<'a>) -> Result<Statement<'a>, TextFault>
    ensures { Reads result (by_word word.now fields.entry) }
{
    if is_comment(word) {
        Ok(Statement::Blank)
    } else if is_word(word, b"evacplan") {
        header(fields)
    } else if is_word(word, b"end") {
        end(fields)
    } else {
        Ok(Statement::Part(read_part(word, fields)?))
    }
}

/// What a line of a model says, or its first fault.
pub fn read_line(line: &[u8]) -> Result<Statement<'_>, TextFault>
    ensures exact { Reads result (statement_of line.now) }
    ensures within { IfOk result (λ statement. IsSaid (said statement)) }
    ensures no_command { IfErr result (λ fault. fault ≢ TextFault.UnknownCommand) }
{
    let mut fields = Fields::new(line);
    match fields.next() {
        None => Ok(Statement::Blank),
        Some(word) => by_word(word, fields),
    }
}

// Whether a first word is unknown after the header of a version.
fn is_unknown(version: u32, word: &[u8]) -> bool
    ensures { result ≡ is_unknown version word.now }
{
    is_word(word, b"evacplan")
        || (version == 1 && (is_word(word, b"window") || is_word(word, b"entrant")))
}

// What a line after the header of a version says by its first word.
fn later_by_word<'a>(
    version: u32,
    word: &[u8],
    fields: Fields<'a>,
) -> Result<Statement<'a>, TextFault>
    ensures { Reads result (if is_unknown version word.now then Err TextFault.UnknownWord else by_word word.now fields.entry) }
{
    if is_unknown(version, word) {
        Err(TextFault::UnknownWord)
    } else {
        by_word(word, fields)
    }
}

/// What a line after the header of a version says, or its first fault.
pub fn read_later_line(version: u32, line: &[u8]) -> Result<Statement<'_>, TextFault>
    ensures exact { Reads result (later_statement version line.now) }
    ensures within { IfOk result (λ statement. IsSaid (said statement)) }
    ensures no_command { IfErr result (λ fault. fault ≢ TextFault.UnknownCommand) }
{
    let mut fields = Fields::new(line);
    match fields.next() {
        None => Ok(Statement::Blank),
        Some(word) => later_by_word(version, word, fields),
    }
}
