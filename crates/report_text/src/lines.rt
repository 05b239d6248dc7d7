//! The lines of the reports.
ghost use Rattle.std.specs.Prelude.{◌≡◌, ◌≤◌, ◌==◌, if◌then◌else◌, [], ◌∷◌, ◌++◌, decimal, length};
ghost use Rattle.evac_law.specs.Names.{IsName, name_text};
ghost use Rattle.line_io.specs.Writer.{Writes};
ghost use Rattle.report_text.specs.ReportText.{arc_line, arc_periods_line, card_line, cut_line, entry_line, floor_clear_line, hold_line, hold_periods_line, moment_field, node_clear_line, number_line, route_line, step_line, work_text};

use certificate_text::put_name;
use evac_law::NodeName;
use line_io::{Sink, TextLine, Writer};

/// Puts a line of a word and a number.
#[tactic(auto, unfolding(crate::specs::ReportText::number_line))]
pub fn put_number<K: Sink>(writer: &mut Writer<'_, K>, word: &[u8], number: u64)
    requires { length word.now ≤ 100 }
    ensures { Writes K.Sink writer.old (number_line word.now number) writer.new }
{
    let mut line = TextLine::new(word);
    line.number(number);
    writer.put(line);
}

/// Puts the line of a cut: its moment and its value.
#[tactic(auto, unfolding(crate::specs::ReportText::cut_line))]
pub fn put_cut_line<K: Sink>(writer: &mut Writer<'_, K>, moment: u16, value: u64)
    ensures { Writes K.Sink writer.old (cut_line moment value) writer.new }
{
    let mut line = TextLine::new(b"cut");
    line.number(u64::from(moment));
    line.number(value);
    writer.put(line);
}

#[tactic(auto, unfolding(crate::specs::ReportText::entry_line))]
pub(crate) fn put_entry<K: Sink>(writer: &mut Writer<'_, K>, name: NodeName, people: u32)
    requires { IsName name }
    ensures { Writes K.Sink writer.old (entry_line (name_text name) people) writer.new }
{
    let mut line = TextLine::new(b"entry");
    put_name(&mut line, name);
    line.number(u64::from(people));
    writer.put(line);
}

#[tactic(auto, unfolding(crate::specs::ReportText::hold_line))]
pub(crate) fn put_hold<K: Sink>(
    writer: &mut Writer<'_, K>,
    name: NodeName,
    moment: u16,
    capacity: u32,
)
    requires { IsName name }
    ensures { Writes K.Sink writer.old (hold_line (name_text name) moment capacity) writer.new }
{
    let mut line = TextLine::new(b"hold");
    put_name(&mut line, name);
    line.number(u64::from(moment));
    line.number(u64::from(capacity));
    writer.put(line);
}

#[tactic(auto, unfolding(crate::specs::ReportText::arc_line))]
pub(crate) fn put_arc<K: Sink>(
    writer: &mut Writer<'_, K>,
    moment: u16,
    from: NodeName,
    to: NodeName,
    rate: u32,
)
    requires from { IsName from }
    requires to { IsName to }
    ensures { Writes K.Sink writer.old (arc_line moment (name_text from) (name_text to) rate) writer.new }
{
    let mut line = TextLine::new(b"arc");
    line.number(u64::from(moment));
    put_name(&mut line, from);
    put_name(&mut line, to);
    line.number(u64::from(rate));
    writer.put(line);
}

// Puts a space and a moment that isn't 0 at the end.
fn put_entered(line: &mut TextLine, moment: u16)
    requires { length line.old ≤ 100 }
    ensures { line.new ≡ line.old ++ (if moment == 0 then [] else (32 ∷ decimal moment)) }
{
    if moment > 0 {
        line.number(u64::from(moment));
    }
}

#[tactic(auto, unfolding(crate::specs::ReportText::route_line))]
pub(crate) fn put_route_line<K: Sink>(
    writer: &mut Writer<'_, K>,
    people: u32,
    name: NodeName,
    moment: u16,
)
    requires { IsName name }
    ensures { Writes K.Sink writer.old (route_line people (name_text name) moment) writer.new }
{
    let mut line = TextLine::new(b"route");
    line.number(u64::from(people));
    put_name(&mut line, name);
    put_entered(&mut line, moment);
    writer.put(line);
}

#[tactic(auto, unfolding(crate::specs::ReportText::card_line))]
pub(crate) fn put_card_line<K: Sink>(
    writer: &mut Writer<'_, K>,
    number: u32,
    name: NodeName,
    moment: u16,
)
    requires { IsName name }
    ensures { Writes K.Sink writer.old (card_line number (name_text name) moment) writer.new }
{
    let mut line = TextLine::new(b"card");
    line.number(u64::from(number));
    put_name(&mut line, name);
    put_entered(&mut line, moment);
    writer.put(line);
}

#[tactic(auto, unfolding(crate::specs::ReportText::step_line))]
pub(crate) fn put_step<K: Sink>(
    writer: &mut Writer<'_, K>,
    moment: u16,
    from: NodeName,
    to: NodeName,
)
    requires from { IsName from }
    requires to { IsName to }
    ensures { Writes K.Sink writer.old (step_line moment (name_text from) (name_text to)) writer.new }
{
    let mut line = TextLine::new(b"step");
    line.number(u64::from(moment));
    put_name(&mut line, from);
    put_name(&mut line, to);
    writer.put(line);
}

// Puts a space and a moment at the end, or a word where there is none.
fn put_moment(line: &mut TextLine, moment: Option<u16>)
    requires { length line.old ≤ 100 }
    ensures { line.new ≡ line.old ++ (32 ∷ moment_field moment) }
{
    match moment {
        Some(moment) => line.number(u64::from(moment)),
        None => line.field(b"none"),
    }
}

#[tactic(auto, unfolding(crate::specs::ReportText::node_clear_line))]
pub(crate) fn put_node_clear<K: Sink>(
    writer: &mut Writer<'_, K>,
    name: NodeName,
    moment: Option<u16>,
)
    requires { IsName name }
    ensures { Writes K.Sink writer.old (node_clear_line (name_text name) moment) writer.new }
{
    let mut line = TextLine::new(b"node");
    put_name(&mut line, name);
    put_moment(&mut line, moment);
    writer.put(line);
}

#[tactic(auto, unfolding(crate::specs::ReportText::floor_clear_line))]
pub(crate) fn put_floor_clear<K: Sink>(writer: &mut Writer<'_, K>, floor: u16, moment: Option<u16>)
    ensures { Writes K.Sink writer.old (floor_clear_line floor moment) writer.new }
{
    let mut line = TextLine::new(b"floor");
    line.number(u64::from(floor));
    put_moment(&mut line, moment);
    writer.put(line);
}

#[tactic(auto, unfolding(crate::specs::ReportText::arc_periods_line))]
pub(crate) fn put_arc_periods<K: Sink>(
    writer: &mut Writer<'_, K>,
    from: NodeName,
    to: NodeName,
    periods: u32,
)
    requires from { IsName from }
    requires to { IsName to }
    ensures { Writes K.Sink writer.old (arc_periods_line (name_text from) (name_text to) periods) writer.new }
{
    let mut line = TextLine::new(b"arc");
    put_name(&mut line, from);
    put_name(&mut line, to);
    line.number(u64::from(periods));
    writer.put(line);
}

#[tactic(auto, unfolding(crate::specs::ReportText::hold_periods_line))]
pub(crate) fn put_hold_periods<K: Sink>(writer: &mut Writer<'_, K>, name: NodeName, periods: u32)
    requires { IsName name }
    ensures { Writes K.Sink writer.old (hold_periods_line (name_text name) periods) writer.new }
{
    let mut line = TextLine::new(b"hold");
    put_name(&mut line, name);
    line.number(u64::from(periods));
    writer.put(line);
}

/// Puts the work of an edit: the people who were taken back, and those who were sent anew.
#[tactic(auto, unfolding(crate::specs::ReportText::work_text))]
pub fn put_work<K: Sink>(writer: &mut Writer<'_, K>, cancelled: u64, pushes: u64)
    ensures { Writes K.Sink writer.old (work_text cancelled pushes) writer.new }
{
    let mut line = TextLine::new(b"work");
    line.number(cancelled);
    line.number(pushes);
    writer.put(line);
}
