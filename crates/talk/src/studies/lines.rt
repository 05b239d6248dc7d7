//! The lines of a study.
ghost use Rattle.std.specs.Prelude.{◌≡◌, ◌<◌, ◌≤◌, [], ◌∷◌, codes, decimal, length};
ghost use Rattle.evac_law.specs.Building.{IsValid, head, tail};
ghost use Rattle.evac_law.specs.Names.{IsName, name_text};
ghost use Rattle.line_io.specs.Text.{fields};
ghost use Rattle.line_io.specs.Writer.{Writes};
ghost use Rattle.certificate_text.specs.BlockText.{name_of_node};
ghost use Rattle.talk.specs.StudyTexts.{arc_least_line, arc_never_line, exit_line, exit_short_line};
ghost use Rattle.talk.specs.Trials.{IsRateTrial};

use crate::studies::trial::Trial;
use certificate_text::put_name;
use evac_law::{Model, NodeName};
use line_io::{Sink, TextLine, Writer};

/// Puts when everybody is out without an exit.
pub(crate) fn put_exit<K: Sink>(writer: &mut Writer<'_, K>, name: NodeName, moment: u16)
    requires { IsName name }
    ensures { Writes K.Sink writer.old (exit_line (name_text name) moment) writer.new }
{
    let mut line = TextLine::new(b"exit");
    put_name(&mut line, name);
    line.number(u64::from(moment));
    writer.put(line);
}

/// Puts how many get out at most without an exit.
pub(crate) fn put_exit_short<K: Sink>(writer: &mut Writer<'_, K>, name: NodeName, most: u32)
    requires { IsName name }
    ensures { Writes K.Sink writer.old (exit_short_line (name_text name) most) writer.new }
{
    let mut line = TextLine::new(b"exit");
    put_name(&mut line, name);
    line.field(b"short");
    line.number(u64::from(most));
    writer.put(line);
}

// The line of an arc and a moment, without its last field.
fn arc_line(model: &Model, arc: u32, by: u16) -> TextLine
    requires valid { IsValid model.now }
    requires arc { arc < length model.now.arcs }
    ensures line { let m = model.now in
        result ≡ fields (codes "least" ∷ name_of_node m (tail m arc) ∷ name_of_node m (head m arc) ∷ decimal by ∷ []) }
    ensures few { length result ≤ 48 }
{
    let row = model.arc(arc);
    let (from, to) = (row.from, row.to);
    let mut line = TextLine::new(b"least");
    put_name(&mut line, model.node(from).name);
    put_name(&mut line, model.node(to).name);
    line.number(u64::from(by));
    line
}

/// Puts the least rate of an arc.
pub(crate) fn put_least<K: Sink>(writer: &mut Writer<'_, K>, model: &Model, trial: Trial)
    requires valid { IsValid model.now }
    requires trial { IsRateTrial model.now trial }
    ensures { Writes K.Sink writer.old (arc_least_line model.now trial.arc trial.by trial.rate) writer.new }
{
    let mut line = arc_line(model, trial.arc, trial.by);
    line.number(u64::from(trial.rate));
    writer.put(line);
}

/// Puts that no rate of an arc is enough.
pub(crate) fn put_never<K: Sink>(writer: &mut Writer<'_, K>, model: &Model, arc: u32, by: u16)
    requires valid { IsValid model.now }
    requires arc { arc < length model.now.arcs }
    ensures { Writes K.Sink writer.old (arc_never_line model.now arc by) writer.new }
{
    let mut line = arc_line(model, arc, by);
    line.field(b"never");
    writer.put(line);
}
