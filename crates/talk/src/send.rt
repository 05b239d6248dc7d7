//! Refusals, each brought to the sink.
ghost use Rattle.std.specs.Prelude.{◌≡◌};
ghost use Rattle.evac_law.specs.Building.{IsValid};
ghost use Rattle.evac_law.specs.Certificates.{IsTableOf};
ghost use Rattle.certificate_text.specs.BlockText.{refusal_line};
ghost use Rattle.talk.specs.Held.{SendsTo};
ghost use Rattle.talk.specs.Short.{short_text};

use certificate_text::{put_refusal, put_short};
use edit_session::Short;
use evac_law::Code;
use line_io::{Out, Sink, WriteFault, Writer};

/// Sends the refusal of a line.
pub fn send_refusal<K: Sink>(
    out: &mut Out,
    sink: &mut K,
    code: Code,
    line: u32,
) -> Result<(), WriteFault>
    ensures { SendsTo K.Sink result (refusal_line code line) sink.old out.old sink.new out.new }
{
    let mut writer = Writer::new(out, sink);
    put_refusal(&mut writer, code, line);
    writer.flush()
}

/// Sends the refusal of a model that can't be cleared, at a line, with the cut that its labels make at the horizon.
pub fn send_short<K: Sink>(
    out: &mut Out,
    sink: &mut K,
    short: &Short,
    line: u32,
) -> Result<(), WriteFault>
    requires valid { IsValid short.now.model }
    requires table { IsTableOf short.now.model short.now.labels }
    ensures { SendsTo K.Sink result (short_text line short.now) sink.old out.old sink.new out.new }
{
    let model = &short.model;
    let people = model.people();
    let mut writer = Writer::new(out, sink);
    put_short(&mut writer, model, line, people, short.most, &short.labels);
    writer.flush()
}
