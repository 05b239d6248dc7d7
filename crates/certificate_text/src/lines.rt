//! The lines of a block.
ghost use Rattle.std.specs.Prelude.{◌≡◌, ℕ, List, ◌+◌, ◌++◌, ◌≤◌, ◌<◌, ◌^◌, ◌∷◌, length};
ghost use Rattle.evac_law.specs.Names.{IsName, name_text};
ghost use Rattle.line_io.specs.Writer.{Writes};
ghost use Rattle.certificate_text.specs.BlockText.{answer_line, cleared_line, end_line, in_line, label_line, most_line, move_line, out_line, people_line, refusal_line};

use crate::names::{EndsText, NameText};
use evac_law::{Code, NodeName};
use line_io::{Sink, TextLine, Writer};

/// Puts a space and a name at the end.
pub fn put_name(line: &mut TextLine, name: NodeName)
    requires name { IsName name }
    requires room { length line.old ≤ 100 }
    ensures value { line.new ≡ line.old ++ (32 ∷ name_text name) }
    ensures few { length line.new ≤ length line.old + 11 }
{
    line.field(NameText::new(name).bytes());
}

#[tactic(auto, unfolding(crate::specs::BlockText::answer_line))]
pub(crate) fn put_index<K: Sink>(writer: &mut Writer<'_, K>, index: u32)
    ensures { Writes K.Sink writer.old (answer_line index) writer.new }
{
    let mut line = TextLine::new(b"answer");
    line.number(u64::from(index));
    writer.put(line);
}

#[tactic(auto, unfolding(crate::specs::BlockText::people_line))]
pub(crate) fn put_people<K: Sink>(writer: &mut Writer<'_, K>, people: u32)
    ensures { Writes K.Sink writer.old (people_line people) writer.new }
{
    let mut line = TextLine::new(b"people");
    line.number(u64::from(people));
    writer.put(line);
}

#[tactic(auto, unfolding(crate::specs::BlockText::cleared_line))]
pub(crate) fn put_cleared<K: Sink>(writer: &mut Writer<'_, K>, moment: u16)
    ensures { Writes K.Sink writer.old (cleared_line moment) writer.new }
{
    let mut line = TextLine::new(b"cleared");
    line.number(u64::from(moment));
    writer.put(line);
}

#[tactic(auto, unfolding(crate::specs::BlockText::out_line))]
pub(crate) fn put_out<K: Sink>(writer: &mut Writer<'_, K>, period: u16, people: u64)
    ensures { Writes K.Sink writer.old (out_line period people) writer.new }
{
    let mut line = TextLine::new(b"out");
    line.number(u64::from(period));
    line.number(people);
    writer.put(line);
}

#[tactic(auto, unfolding(crate::specs::BlockText::label_line))]
pub(crate) fn put_label<K: Sink>(
    writer: &mut Writer<'_, K>,
    name: &NameText,
    moment: u16,
    label: u16,
)
    ensures { Writes K.Sink writer.old (label_line name.now moment label) writer.new }
{
    let mut line = TextLine::new(b"label");
    line.field(name.bytes());
    line.number(u64::from(moment));
    line.number(u64::from(label));
    writer.put(line);
}

#[tactic(auto, unfolding(crate::specs::BlockText::move_line))]
pub(crate) fn put_move<K: Sink>(
    writer: &mut Writer<'_, K>,
    moment: u16,
    ends: &EndsText,
    people: u32,
)
    ensures { (from to : List ℕ) → ends.now ≡ from ++ (32 ∷ to) → Writes K.Sink writer.old (move_line moment from to people) writer.new }
{
    let mut line = TextLine::new(b"move");
    line.number(u64::from(moment));
    line.field(ends.bytes());
    line.number(u64::from(people));
    writer.put(line);
}

#[tactic(auto, unfolding(crate::specs::BlockText::most_line))]
pub(crate) fn put_most<K: Sink>(writer: &mut Writer<'_, K>, most: u32)
    ensures { Writes K.Sink writer.old (most_line most) writer.new }
{
    let mut line = TextLine::new(b"most");
    line.number(u64::from(most));
    writer.put(line);
}

#[tactic(auto, unfolding(crate::specs::BlockText::in_line))]
pub(crate) fn put_in<K: Sink>(writer: &mut Writer<'_, K>, name: NodeName, first: u16, last: u16)
    requires { IsName name }
    ensures { Writes K.Sink writer.old (in_line (name_text name) first last) writer.new }
{
    let mut line = TextLine::new(b"in");
    put_name(&mut line, name);
    line.number(u64::from(first));
    line.number(u64::from(last));
    writer.put(line);
}

/// Puts the last line of a block.
#[tactic(auto, unfolding(crate::specs::BlockText::end_line))]
pub fn put_end<K: Sink>(writer: &mut Writer<'_, K>)
    ensures { Writes K.Sink writer.old end_line writer.new }
{
    writer.put(TextLine::new(b"end"));
}

/// Puts a refusal by its code, at a line of the input.
#[tactic(auto, unfolding(crate::specs::BlockText::refusal_line))]
pub fn put_refusal<K: Sink>(writer: &mut Writer<'_, K>, code: Code, line: u32)
    ensures { Writes K.Sink writer.old (refusal_line code line) writer.new }
{
    let mut text = TextLine::new(b"refused");
    text.number(u64::from(code.number()));
    text.number(u64::from(line));
    writer.put(text);
}
