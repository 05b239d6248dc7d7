//! The line of a verdict.
ghost use Rattle.std.specs.Prelude.{◌≡◌, ◌≤◌, [], length};
ghost use Rattle.evac_law.specs.Building.{IsValid};
ghost use Rattle.line_io.specs.Text.{fields};
ghost use Rattle.evac_top.specs.Check.{IsVerdictOf, no_fields, verdict_fields, verdict_text};
ghost use Rattle.talk.specs.Held.{SendsTo};

use certificate_text::put_name;
use evac_law::{Code, Model};
use line_io::{Out, Sink, TextLine, WriteFault, Writer};
use plan_checker::Verdict;

// A line that says no, with a code.
fn no(code: Code) -> TextLine
    ensures line { result ≡ fields (no_fields code []) }
    ensures few { length result ≤ 23 }
{
    let mut line = TextLine::new(b"no");
    line.number(u64::from(code.number()));
    line
}

// The line without its end.
fn line_of(model: &Model, verdict: Verdict) -> TextLine
    requires valid { IsValid model.now }
    requires place { IsVerdictOf model.now verdict }
    ensures { result ≡ fields (verdict_fields model.now verdict) }
{
    match verdict {
        Verdict::Yes => TextLine::new(b"yes"),
        Verdict::PeopleWrong => no(Code::PeopleWrong),
        Verdict::RateBroken { moment, arc } => {
            let row = model.arc(arc);
            let mut line = no(Code::RateBroken);
            line.number(u64::from(moment));
            put_name(&mut line, model.node(row.from).name);
            put_name(&mut line, model.node(row.to).name);
            line
        }
        Verdict::HeldBroken { moment, node } => {
            let mut line = no(Code::HeldBroken);
            line.number(u64::from(moment));
            put_name(&mut line, model.node(node).name);
            line
        }
        Verdict::NotAllOut => no(Code::NotAllOut),
        Verdict::OutWrong { period } => {
            let mut line = no(Code::OutWrong);
            line.number(u64::from(period));
            line
        }
        Verdict::CutWrong { period } => {
            let mut line = no(Code::CutWrong);
            line.number(u64::from(period));
            line
        }
    }
}

/// Sends the line of a verdict.
pub(crate) fn send_verdict<K: Sink>(
    out: &mut Out,
    sink: &mut K,
    model: &Model,
    verdict: Verdict,
) -> Result<(), WriteFault>
    requires valid { IsValid model.now }
    requires place { IsVerdictOf model.now verdict }
    ensures { SendsTo K.Sink result (verdict_text model.now verdict) sink.old out.old sink.new out.new }
{
    let mut writer = Writer::new(out, sink);
    writer.put(line_of(model, verdict));
    writer.flush()
}
