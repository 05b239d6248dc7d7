//! An edit of a model, by names.
ghost use Rattle.std.specs.Prelude.{◌≡◌};
ghost use Rattle.model_text.specs.Fields.{fields_of};
ghost use Rattle.model_text.specs.NamedEdits.{edit_by_word, name_number, names_number, names_numbers, two_names, with_name, with_name_number, with_names, with_names_number, with_names_numbers};

use crate::fault::TextFault;
use crate::field_values::{four, name, number, one, three, two};
use crate::fields::{Fields, is_word};
use evac_law::NodeName;

/// An edit of a model, by names.
#[derive(Clone, Copy)]
pub enum NamedEdit {
    Shut {
        from: NodeName,
        to: NodeName,
    },
    Reopen {
        from: NodeName,
        to: NodeName,
    },
    ShutExit {
        node: NodeName,
    },
    ReopenExit {
        node: NodeName,
    },
    Rate {
        from: NodeName,
        to: NodeName,
        rate: u32,
    },
    Room {
        node: NodeName,
        capacity: u32,
    },
    Shift {
        from: NodeName,
        to: NodeName,
        people: u32,
    },
    Enter {
        node: NodeName,
        people: u32,
    },
    Leave {
        node: NodeName,
        people: u32,
    },
    Window {
        from: NodeName,
        to: NodeName,
        first: u32,
        until: u32,
    },
    Unwindow {
        from: NodeName,
        to: NodeName,
        first: u32,
        until: u32,
    },
}

fn names<'a>(fields: Fields<'a>) -> Result<(NodeName, NodeName), TextFault>
    ensures { result ≡ two_names (fields_of fields.entry) }
{
    let (from, to) = two(fields)?;
    let from = name(from)?;
    let to = name(to)?;
    Ok((from, to))
}

fn name_and_number<'a>(fields: Fields<'a>) -> Result<(NodeName, u32), TextFault>
    ensures { result ≡ name_number (fields_of fields.entry) }
{
    let (node, count) = two(fields)?;
    let node = name(node)?;
    let count = number(count)?;
    Ok((node, count))
}

pub(crate) fn names_and_number<'a>(
    fields: Fields<'a>,
) -> Result<(NodeName, NodeName, u32), TextFault>
    ensures { result ≡ names_number (fields_of fields.entry) }
{
    let (from, to, count) = three(fields)?;
    let from = name(from)?;
    let to = name(to)?;
    let count = number(count)?;
    Ok((from, to, count))
}

fn names_and_numbers<'a>(fields: Fields<'a>) -> Result<(NodeName, NodeName, u32, u32), TextFault>
    ensures { result ≡ names_numbers (fields_of fields.entry) }
{
    let (from, to, first, until) = four(fields)?;
    let from = name(from)?;
    let to = name(to)?;
    let first = number(first)?;
    let until = number(until)?;
    Ok((from, to, first, until))
}

fn shut<'a>(fields: Fields<'a>) -> Result<NamedEdit, TextFault>
    ensures { result ≡ with_names NamedEdit.Shut (fields_of fields.entry) }
{
    let (from, to) = names(fields)?;
    Ok(NamedEdit::Shut { from, to })
}

fn reopen<'a>(fields: Fields<'a>) -> Result<NamedEdit, TextFault>
    ensures { result ≡ with_names NamedEdit.Reopen (fields_of fields.entry) }
{
    let (from, to) = names(fields)?;
    Ok(NamedEdit::Reopen { from, to })
}

fn shut_exit<'a>(fields: Fields<'a>) -> Result<NamedEdit, TextFault>
    ensures { result ≡ with_name NamedEdit.ShutExit (fields_of fields.entry) }
{
    let node = name(one(fields)?)?;
    Ok(NamedEdit::ShutExit { node })
}

fn reopen_exit<'a>(fields: Fields<'a>) -> Result<NamedEdit, TextFault>
    ensures { result ≡ with_name NamedEdit.ReopenExit (fields_of fields.entry) }
{
    let node = name(one(fields)?)?;
    Ok(NamedEdit::ReopenExit { node })
}

fn rate<'a>(fields: Fields<'a>) -> Result<NamedEdit, TextFault>
    ensures { result ≡ with_names_number NamedEdit.Rate (fields_of fields.entry) }
{
    let (from, to, rate) = names_and_number(fields)?;
    Ok(NamedEdit::Rate { from, to, rate })
}

fn room<'a>(fields: Fields<'a>) -> Result<NamedEdit, TextFault>
    ensures { result ≡ with_name_number NamedEdit.Room (fields_of fields.entry) }
{
    let (node, capacity) = name_and_number(fields)?;
    Ok(NamedEdit::Room { node, capacity })
}

fn shift<'a>(fields: Fields<'a>) -> Result<NamedEdit, TextFault>
    ensures { result ≡ with_names_number NamedEdit.Shift (fields_of fields.entry) }
{
    let (from, to, people) = names_and_number(fields)?;
    Ok(NamedEdit::Shift { from, to, people })
}

fn enter<'a>(fields: Fields<'a>) -> Result<NamedEdit, TextFault>
    ensures { result ≡ with_name_number NamedEdit.Enter (fields_of fields.entry) }
{
    let (node, people) = name_and_number(fields)?;
    Ok(NamedEdit::Enter { node, people })
}

fn leave<'a>(fields: Fields<'a>) -> Result<NamedEdit, TextFault>
    ensures { result ≡ with_name_number NamedEdit.Leave (fields_of fields.entry) }
{
    let (node, people) = name_and_number(fields)?;
    Ok(NamedEdit::Leave { node, people })
}

fn window<'a>(fields: Fields<'a>) -> Result<NamedEdit, TextFault>
    ensures { result ≡ with_names_numbers NamedEdit.Window (fields_of fields.entry) }
{
    let (from, to, first, until) = names_and_numbers(fields)?;
    Ok(NamedEdit::Window {
        from,
        to,
        first,
        until,
    })
}

fn unwindow<'a>(fields: Fields<'a>) -> Result<NamedEdit, TextFault>
    ensures { result ≡ with_names_numbers NamedEdit.Unwindow (fields_of fields.entry) }
{
    let (from, to, first, until) = names_and_numbers(fields)?;
    Ok(NamedEdit::Unwindow {
        from,
        to,
        first,
        until,
    })
}

/// The edit that a word and the fields after it say, or their first fault.
pub(crate) fn read_edit<'a>(word: &[u8], fields: Fields<'a>) -> Result<NamedEdit, TextFault>
    ensures { result ≡ edit_by_word word.now (fields_of fields.entry) }
{
    if is_word(word, b"shut") {
        shut(fields)
    } else if is_word(word, b"reopen") {
        reopen(fields)
    } else if is_word(word, b"shutexit") {
        shut_exit(fields)
    } else if is_word(word, b"openexit") {
        reopen_exit(fields)
    } else if is_word(word, b"rate") {
        rate(fields)
    } else if is_word(word, b"room") {
        room(fields)
    } else if is_word(word, b"shift") {
        shift(fields)
    } else if is_word(word, b"enter") {
        enter(fields)
    } else if is_word(word, b"leave") {
        leave(fields)
    } else if is_word(word, b"window") {
        window(fields)
    } else if is_word(word, b"unwindow") {
        unwindow(fields)
    } else {
        Err(TextFault::UnknownCommand)
    }
}
