//! What hears the lines of a talk.
ghost use Rattle.std.specs.Prelude.{◌≡◌, ◌<◌, ◌≤◌, ℕ};
ghost use Rattle.evac_law.specs.declared.model.Model.{Model};
ghost use Rattle.line_io.specs.Calls.{Asks};
ghost use Rattle.line_io.specs.Hearing.{IsCaused, Listens};
ghost use Rattle.line_io.specs.Reader.{Drained};
ghost use Rattle.building_table.specs.Names.{NameTable};
ghost use Rattle.talk.specs.Held.{KeepsEnds};
ghost use Rattle.talk.specs.Speaking.{HearsLine, shown_on};

use crate::channel::Channel;
use crate::fault::AnswerFault;
use crate::speaker::Speaker;
use evac_law::Steps;
use line_io::{Ending, Heard, Listener, Out, Sink, Source, Writer, listen};
use std::sync::ledger::Ledger;

// Who answers, and where the replies go.
#[derive(Drop)]
struct Talker<'a, 'b, T: Speaker, K: Sink, L: Ledger> {
    speaker: &'b mut T,
    out: &'a mut Out,
    sink: &'a mut K,
    steps: &'a mut Steps<L>,
}

impl<'a, 'b, T: Speaker, K: Sink, L: Ledger> Listener for Talker<'a, 'b, T, K, L> {
    ghost use Rattle.std.specs.Prelude.{◌≡◌, ℕ};
    ghost use Rattle.evac_law.specs.declared.model.Model.{Model};
    ghost use Rattle.building_table.specs.Names.{NameTable};
    ghost use Rattle.talk.specs.Speaking.{HearsLine, shown_on};

    type Fault = AnswerFault;

    ghost Kept = { ℕ × ℕ × ℕ };

    ghost kept = { λ s. (s.out.ghost_name, s.sink.ghost_name, s.steps.ghost_name) };

    ghost ready = { λ s. T.ready s.speaker.now };

    ghost hears = { λ s line text result s'. (names : NameTable) (m : Model) → HearsLine (T.talk names m) (T.Reaches names m)
        (shown_on K.Sink (T.kept s.speaker.now) (T.state s.speaker.now) s.sink.now s.out.now s.steps.now) line text result
        (shown_on K.Sink (T.kept s'.speaker.now) (T.state s'.speaker.now) s'.sink.now s'.out.now s'.steps.now) };

    fn hear(&mut self, text: &[u8], line: u32) -> Result<Heard, AnswerFault> {
        let mut writer = Writer::new(self.out, self.sink);
        match self.speaker.answer(&mut writer, self.steps, text, line) {
            Ok(Heard::More) => {
                writer.flush()?;
                Ok(Heard::More)
            }
            Ok(Heard::Last) => Ok(Heard::Last),
            Err(_) => Err(AnswerFault::Memory),
        }
    }
}

/// Answers the lines of a channel, each before it reads on.
pub fn converse<S: Source, K: Sink, L: Ledger, T: Speaker>(
    channel: &mut Channel<'_, S, K>,
    speaker: &mut T,
    steps: &mut Steps<L>,
) -> Ending<AnswerFault>
    requires { T.ready speaker.old }
    ensures hears { (names : NameTable) (m : Model) → (end : T) × Listens (HearsLine (T.talk names m) (T.Reaches names m)) result
        (shown_on K.Sink (T.kept speaker.old) (T.state speaker.old) channel.old.sink.now channel.old.out.now steps.old)
        (shown_on K.Sink (T.kept end) (T.state end) channel.new.sink.now channel.new.out.now steps.new)
        channel.old.lines.now channel.new.lines.now (S.left channel.old.source.now) (S.left channel.new.source.now) }
    ensures cause { IsCaused result (S.faults channel.old.source.now) (S.faults channel.new.source.now) }
    ensures drained { Drained channel.old.lines.now (S.left channel.old.source.now) → Drained channel.new.lines.now (S.left channel.new.source.now) }
    ensures asks { Asks S.takes channel.old.lines.now channel.old.source.now channel.new.lines.now channel.new.source.now }
    ensures ends { KeepsEnds channel.old channel.new }
{
    let mut talker = Talker {
        speaker,
        out: channel.out,
        sink: channel.sink,
        steps,
    };
    listen(channel.lines, channel.source, &mut talker)
}
