//! What a line of a replan asks for.
ghost use Rattle.std.specs.Prelude.{◌≡◌};
ghost use Rattle.model_text.specs.Fields.{fields_of};
ghost use Rattle.talk.specs.ReplanTalks.{moment_of, request_of};

use model_text::{Command, Fields, TextFault, is_word, read_command, read_number};

/// What a line of a replan asks for.
#[derive(Clone, Copy)]
pub enum Request {
    /// To carry the plan out up to a moment.
    Advance(u32),
    /// What a line of a session commands.
    Session(Command),
}

// The moment that fields name, or their first fault.
fn moment_of<'a>(mut fields: Fields<'a>) -> Result<u32, TextFault>
    ensures { result ≡ moment_of (fields_of fields.entry) }
{
    let (Some(field), None) = (fields.next(), fields.next()) else {
        return Err(TextFault::FieldCount);
    };
    match read_number(field) {
        Some(moment) => Ok(moment),
        None => Err(TextFault::BadNumber),
    }
}

/// What a line asks for, or its first fault.
pub(crate) fn read_request(line: &[u8]) -> Result<Request, TextFault>
    ensures { result ≡ request_of line.now }
{
    let mut fields = Fields::new(line);
    match fields.next() {
        Some(word) if is_word(word, b"advance") => Ok(Request::Advance(moment_of(fields)?)),
        _ => Ok(Request::Session(read_command(line)?)),
    }
}
