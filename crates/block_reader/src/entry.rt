//! What a line of a block says.
ghost use Rattle.std.specs.Prelude.{◌≡◌};
ghost use Rattle.model_text.specs.Fields.{fields_of};
ghost use Rattle.certificate_text.specs.Entries.{entry_by_word, cleared_entry, end_entry, entry_of, index_entry, label_entry, label_of, move_entry, read_move, one_number, out_entry, out_of, people_entry};

use certificate_text::Entry;
use model_text::{Fields, is_comment, is_word, read_name, read_number};

// The only field, which is a number.
fn one_number<'a>(mut fields: Fields<'a>) -> Option<u32>
    ensures { result ≡ one_number (fields_of fields.entry) }
{
    match (fields.next(), fields.next()) {
        (Some(a), None) => read_number(a),
        _ => None,
    }
}

fn index<'a>(fields: Fields<'a>) -> Option<Entry>
    ensures { result ≡ index_entry (fields_of fields.entry) }
{
    let index = one_number(fields)?;
    Some(Entry::Index { index })
}

fn people<'a>(fields: Fields<'a>) -> Option<Entry>
    ensures { result ≡ people_entry (fields_of fields.entry) }
{
    let people = one_number(fields)?;
    Some(Entry::People { people })
}

fn cleared<'a>(fields: Fields<'a>) -> Option<Entry>
    ensures { result ≡ cleared_entry (fields_of fields.entry) }
{
    let moment = one_number(fields)?;
    Some(Entry::Cleared { moment })
}

// The entry of two fields.
fn out_of(period: &[u8], people: &[u8]) -> Option<Entry>
    ensures { result ≡ out_of period.now people.now }
{
    let period = read_number(period)?;
    let people = read_number(people)?;
    Some(Entry::Out { period, people })
}

fn out<'a>(mut fields: Fields<'a>) -> Option<Entry>
    ensures { result ≡ out_entry (fields_of fields.entry) }
{
    match (fields.next(), fields.next(), fields.next()) {
        (Some(period), Some(people), None) => out_of(period, people),
        _ => None,
    }
}

// The entry of three fields.
fn label_of(node: &[u8], moment: &[u8], label: &[u8]) -> Option<Entry>
    ensures { result ≡ label_of node.now moment.now label.now }
{
    let node = read_name(node)?;
    let moment = read_number(moment)?;
    let label = read_number(label)?;
    Some(Entry::Label {
        node,
        moment,
        label,
    })
}

fn label<'a>(mut fields: Fields<'a>) -> Option<Entry>
    ensures { result ≡ label_entry (fields_of fields.entry) }
{
    let (node, moment, label) = (fields.next(), fields.next(), fields.next());
    match (node, moment, label, fields.next()) {
        (Some(node), Some(moment), Some(label), None) => label_of(node, moment, label),
        _ => None,
    }
}

// The entry of four fields.
fn read_move(moment: &[u8], from: &[u8], to: &[u8], people: &[u8]) -> Option<Entry>
    ensures { result ≡ read_move moment.now from.now to.now people.now }
{
    let moment = read_number(moment)?;
    let from = read_name(from)?;
    let to = read_name(to)?;
    let people = read_number(people)?;
    Some(Entry::Move {
        moment,
        from,
        to,
        people,
    })
}

fn enter<'a>(mut fields: Fields<'a>) -> Option<Entry>
    ensures { result ≡ move_entry (fields_of fields.entry) }
{
    let (moment, from, to, people) = (fields.next(), fields.next(), fields.next(), fields.next());
    match (moment, from, to, people, fields.next()) {
        (Some(moment), Some(from), Some(to), Some(people), None) => {
            read_move(moment, from, to, people)
        }
        _ => None,
    }
}

fn end<'a>(mut fields: Fields<'a>) -> Option<Entry>
    ensures { result ≡ end_entry (fields_of fields.entry) }
{
    match fields.next() {
        None => Some(Entry::End),
        Some(_) => None,
    }
}

// What a line says by its first word.
fn entry_by_word<'a>(word: &[u8], fields: Fields<'a>) -> Option<Entry>
    ensures { result ≡ entry_by_word word.now (fields_of fields.entry) }
{
    if is_comment(word) {
        Some(Entry::Blank)
    } else if is_word(word, b"answer") {
        index(fields)
    } else if is_word(word, b"people") {
        people(fields)
    } else if is_word(word, b"cleared") {
        cleared(fields)
    } else if is_word(word, b"out") {
        out(fields)
    } else if is_word(word, b"label") {
        label(fields)
    } else if is_word(word, b"move") {
        enter(fields)
    } else if is_word(word, b"end") {
        end(fields)
    } else {
        None
    }
}

/// What a line says, where it is a line of a block.
pub(crate) fn read_entry(line: &[u8]) -> Option<Entry>
    ensures { result ≡ entry_of line.now }
{
    let mut fields = Fields::new(line);
    match fields.next() {
        None => Some(Entry::Blank),
        Some(word) => entry_by_word(word, fields),
    }
}
