//! Hearing the lines of a source one by one.
ghost use Rattle.std.specs.Prelude.{◌≡◌, ◌≤◌, ℕ, List, length, Ok};
ghost use Rattle.line_io.specs.Calls.{Asks};
ghost use Rattle.line_io.specs.Hearing.{Hearing, IsCaused, Listens};
ghost use Rattle.line_io.specs.Line.{input_limit, line_limit};
ghost use Rattle.line_io.specs.Reader.{Drained};

use crate::lines::{Found, LineFault, Lines};
use crate::outside::Source;
use evac_law::Code;

/// What a listener answers to a line.
#[derive(Clone, Copy)]
pub enum Heard {
    /// It goes on.
    More,
    /// It has heard all that it listens for.
    Last,
}

/// Why a listener refuses a line: by a code, or for want of memory.
#[derive(Clone, Copy)]
pub enum Refusal {
    Code(Code),
    Memory,
}

/// How listening ended.
#[derive(Drop)]
pub enum Ending<F> {
    /// The listener has heard all that it listens for, with the line found last.
    Finished,
    /// The listener failed at the line found last.
    Failed(F),
    /// There is no further line.
    InputEnded,
    /// The next line isn't found.
    Fault(LineFault),
}

/// What hears lines.
pub trait Listener {
    /// Why it fails.
    type Fault;

    /// It can hear a line.
    ghost ready: { Self → Type 0 };

    /// What it may answer to a line of this number and text, and what it is then.
    ghost hears: { Hearing Self Self.Fault };

    /// What no line changes.
    ghost Kept: { Type 0 } = { Unit {0} };

    ghost kept: { Self → Self.Kept };

    /// Hears a line, without its end.
    fn hear(&mut self, text: &[u8], line: u32) -> Result<Heard, Self::Fault>
        requires ready { ready self.old }
        requires line { line ≤ input_limit }
        requires short { length text.now ≤ line_limit }
        ensures hears { hears self.old line text.now result self.new }
        ensures kept { kept self.new ≡ kept self.old }
        ensures more { result ≡ Ok Heard.More → ready self.new };
}

/// Lets a listener hear line by line.
pub fn listen<S: Source, L: Listener>(
    lines: &mut Lines,
    source: &mut S,
    listener: &mut L,
) -> Ending<L::Fault>
    requires ready { L.ready listener.old }
    ensures listens { Listens L.hears result listener.old listener.new lines.old lines.new (S.left source.old) (S.left source.new) }
    ensures cause { IsCaused result (S.faults source.old) (S.faults source.new) }
    ensures kept { L.kept listener.new ≡ L.kept listener.old }
    ensures drained { Drained lines.old (S.left source.old) → Drained lines.new (S.left source.new) }
    ensures asks { Asks S.takes lines.old source.old lines.new source.new }
{
    loop {
        match lines.next(source) {
            Ok(Found::Text) => match listener.hear(lines.text(), lines.number()) {
                Ok(Heard::More) => {}
                Ok(Heard::Last) => return Ending::Finished,
                Err(fault) => return Ending::Failed(fault),
            },
            Ok(Found::End) => return Ending::InputEnded,
            Err(fault) => return Ending::Fault(fault),
        }
    }
}
