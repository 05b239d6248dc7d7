//! Lines of statements, put with their ends.
ghost use Rattle.std.specs.Prelude.{◌≡◌, ◌≤◌, ◌+◌, ◌++◌, ◌∷◌, decimal, length};
ghost use Rattle.std.specs.Option.{option_copied};
ghost use Rattle.line_io.specs.Writer.{Writes};
ghost use Rattle.evac_law.specs.Names.{IsName, name_text};
ghost use Rattle.model_text.specs.Reads.{said, said_part};
ghost use Rattle.model_writer.specs.ModelText.{HasNames, SaysNames, ended, line_end, line_with, part_line, part_text, said_line, said_text};

use crate::limits::WORD_LIMIT;
use certificate_text::put_name;
use evac_law::NodeName;
use line_io::{Sink, TextLine, Writer};
use model_text::{Part, Statement};

// A line of a word and a number.
fn of_number(word: &[u8], number: u32) -> TextLine
    requires { length word.now ≤ WORD_LIMIT }
    ensures { result ≡ word.now ++ (32 ∷ decimal number) }
{
    let mut line = TextLine::new(word);
    line.number(u64::from(number));
    line
}

// A line of a word and a name.
fn of_name(word: &[u8], name: NodeName) -> TextLine
    requires word { length word.now ≤ WORD_LIMIT }
    requires name { IsName name }
    ensures value { result ≡ word.now ++ (32 ∷ name_text name) }
    ensures few { length result ≤ length word.now + 11 }
{
    let mut line = TextLine::new(word);
    put_name(&mut line, name);
    line
}

// A line of a word, a name and two numbers.
fn of_name_numbers(word: &[u8], name: NodeName, first: u32, second: u32) -> TextLine
    requires word { length word.now ≤ WORD_LIMIT }
    requires name { IsName name }
    ensures { result ≡ ((word.now ++ (32 ∷ name_text name)) ++ (32 ∷ decimal first)) ++ (32 ∷ decimal second) }
{
    let mut line = of_name(word, name);
    line.number(u64::from(first));
    line.number(u64::from(second));
    line
}

// A line of a word, two names and two numbers.
fn of_names_numbers(word: &[u8], from: NodeName, to: NodeName, first: u32, second: u32) -> TextLine
    requires word { length word.now ≤ WORD_LIMIT }
    requires from { IsName from }
    requires to { IsName to }
    ensures { result ≡ (((word.now ++ (32 ∷ name_text from)) ++ (32 ∷ name_text to)) ++ (32 ∷ decimal first)) ++ (32 ∷ decimal second) }
{
    let mut line = of_name(word, from);
    put_name(&mut line, to);
    line.number(u64::from(first));
    line.number(u64::from(second));
    line
}

// The fields of a line, and the text that stands after them, where there is one.
#[derive(Drop)]
struct Line<'a> {
    fields: TextLine,
    text: Option<&'a [u8]>,
}

// A line of fields alone.
fn of_fields<'a>(fields: TextLine) -> Line<'a>
    ensures fields { result.fields ≡ fields }
    ensures text { result.text ≡ None }
{
    Line { fields, text: None }
}

// A line of fields and of a text after them.
fn with_text<'a>(fields: TextLine, text: &'a [u8]) -> Line<'a>
    ensures fields { result.fields ≡ fields }
    ensures text { result.text ≡ Some text.entry }
{
    Line {
        fields,
        text: Some(text),
    }
}

// The line of a part.
fn part_line(part: Part<'_>) -> Line<'_>
    requires { HasNames (said_part part) }
    ensures { line_with result.fields (option_copied result.text) ≡ part_line (said_part part.entry) }
{
    match part {
        Part::Title { text } => with_text(TextLine::new(b"title"), text),
        Part::Period { seconds } => of_fields(of_number(b"period", u32::from(seconds))),
        Part::Horizon { moments } => of_fields(of_number(b"horizon", u32::from(moments))),
        Part::Floor { floor, text } => with_text(of_number(b"floor", u32::from(floor)), text),
        Part::Node {
            name,
            capacity,
            start,
        } => of_fields(of_name_numbers(b"node", name, capacity, start)),
        Part::Exit { name } => of_fields(of_name(b"node", name)),
        Part::Arc {
            from,
            to,
            travel,
            rate,
        } => of_fields(of_names_numbers(b"arc", from, to, u32::from(travel), rate)),
        Part::Window {
            from,
            to,
            first,
            until,
        } => of_fields(of_names_numbers(b"window", from, to, u32::from(first), u32::from(until))),
        Part::Entrant {
            name,
            moment,
            people,
        } => of_fields(of_name_numbers(b"entrant", name, u32::from(moment), people)),
    }
}

// The line of a statement.
fn line_of(statement: Statement<'_>) -> Line<'_>
    requires { SaysNames (said statement) }
    ensures { line_with result.fields (option_copied result.text) ≡ said_line (said statement.entry) }
{
    match statement {
        Statement::Blank => of_fields(TextLine::new(b"")),
        Statement::Header { version } => of_fields(of_number(b"evacplan", version)),
        Statement::Part(part) => part_line(part),
        Statement::End => of_fields(TextLine::new(b"end")),
    }
}

// The end of a line.
fn end_of(line: &[u8]) -> &'static [u8]
    ensures { result.now ≡ line_end line.now }
{
    if line.ends_with(b"\r") {
        b"\r\n"
    } else {
        b"\n"
    }
}

// Puts a line with its end.
fn put_line<K: Sink>(writer: &mut Writer<'_, K>, line: &[u8])
    ensures { Writes K.Sink writer.old (ended line.now) writer.new }
{
    writer.put_all(line);
    writer.put_all(end_of(line));
}

// Puts a line of fields and of a text after them, with its end.
fn put_text_line<K: Sink>(writer: &mut Writer<'_, K>, fields: &[u8], text: &[u8])
    ensures { Writes K.Sink writer.old (ended (fields.now ++ (32 ∷ text.now))) writer.new }
{
    writer.put_all(fields);
    writer.put_all(b" ");
    writer.put_all(text);
    writer.put_all(end_of(text));
}

/// Puts the line of a statement with its end.
pub(crate) fn put_statement<K: Sink>(writer: &mut Writer<'_, K>, statement: Statement<'_>)
    requires { SaysNames (said statement) }
    ensures { Writes K.Sink writer.old (said_text (said statement.entry)) writer.new }
{
    let line = line_of(statement);
    match line.text {
        None => put_line(writer, line.fields.bytes()),
        Some(text) => put_text_line(writer, line.fields.bytes(), text),
    }
}

/// Puts the line of a part with its end.
pub(crate) fn put_part<K: Sink>(writer: &mut Writer<'_, K>, part: Part<'_>)
    requires { HasNames (said_part part) }
    ensures { Writes K.Sink writer.old (part_text (said_part part.entry)) writer.new }
{
    put_statement(writer, Statement::Part(part));
}
