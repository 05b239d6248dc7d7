//! Who is out by what was carried out.
ghost use Rattle.std.specs.Prelude.{◌≤◌, ℕ, [], ◌∷◌, codes, decimal};
ghost use Rattle.std.specs.List.{flat_map};
ghost use Rattle.evac_law.specs.Sums.{moments_to};
ghost use Rattle.line_io.specs.Text.{line_text};
ghost use Rattle.line_io.specs.Writer.{Writes};
ghost use Rattle.talk.specs.ReplanDesks.{IsLastOut};
ghost use Rattle.talk.specs.ReplanTalks.{gone_line, gone_text};

use certificate_text::put_end;
use line_io::{Sink, TextLine, Writer};
use replan::Replan;
use report_text::put_number;

// The first moment by which as many are out as by the horizon.
fn last_gone(replan: &Replan) -> u16
    ensures { IsLastOut replan.now result }
{
    let horizon = replan.session().model().horizon;
    let all = replan.gone(horizon);
    for moment in 0..horizon {
        if replan.gone(moment) == all {
            return moment;
        }
    }
    horizon
}

// How many are out by a moment.
fn put_gone_line<K: Sink>(writer: &mut Writer<'_, K>, moment: u16, people: u32)
    ensures { Writes K.Sink writer.old (line_text (codes "gone" ∷ decimal moment ∷ decimal people ∷ [])) writer.new }
{
    let mut line = TextLine::new(b"gone");
    line.number(u64::from(moment));
    line.number(u64::from(people));
    writer.put(line);
}

// How many are out by each moment, up to the last.
fn put_gone_lines<K: Sink>(writer: &mut Writer<'_, K>, replan: &Replan, last: u16)
    requires { last ≤ replan.now.session.state.model.horizon }
    ensures { Writes K.Sink writer.old (flat_map (gone_line replan.now.gone) (moments_to last)) writer.new }
{
    for moment in 0..last {
        put_gone_line(writer, moment, replan.gone(moment));
    }
    put_gone_line(writer, last, replan.gone(last));
}

/// Puts up to where the plan was carried out, and how many are out by each moment by that, up to the last of them.
pub(crate) fn put_gone<K: Sink>(writer: &mut Writer<'_, K>, replan: &Replan)
    ensures { let v = replan.now in (last : ℕ) × IsLastOut v last
        × Writes K.Sink writer.old (gone_text v.moment v.gone last) writer.new }
{
    let last = last_gone(replan);
    put_number(writer, b"advance", u64::from(replan.moment()));
    put_gone_lines(writer, replan, last);
    put_end(writer);
}
