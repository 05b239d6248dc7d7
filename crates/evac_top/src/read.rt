//! The building that an input describes.
ghost use Rattle.std.specs.Prelude.{◌≡◌, ℕ, ◌+◌, ◌≤◌, List, Err, IfOk, Ok, OnOk, false, true};
ghost use Rattle.std.specs.declared.option.Option.{Option};
ghost use Rattle.evac_law.specs.Building.{IsValid};
ghost use Rattle.line_io.specs.Calls.{Asks, AsksAtMost};
ghost use Rattle.line_io.specs.Line.{input_limit};
ghost use Rattle.line_io.specs.Reader.{Drained, HasRoom, is_settled, lines_left};
ghost use Rattle.line_io.specs.Sides.{RisesWith};
ghost use Rattle.line_io.specs.View.{Reader};
ghost use Rattle.line_io.specs.declared.limits.TheConstants.{BUFFER_SIZE};
ghost use Rattle.building_table.specs.Passes.{ReadsLines, ReadsModel};
ghost use Rattle.model_text.specs.Grammar.{statement_of};
ghost use Rattle.evac_top.specs.Inputs.{IsOpenInput, says_nothing};
ghost use Rattle.evac_top.specs.Accounts.{Told};
ghost use Rattle.evac_top.specs.Reads.{InputIs, IsFresh, PassesTail, ReadsTail, Takes, tail_by};

use building_table::{Building, ModelFault, read_model};
use evac_law::Code;
use line_io::{Ending, Heard, LineFault, Lines, Listener, Source, listen};
use model_text::{Statement, read_line};
use std::alloc::Global;

fn says_nothing(line: &[u8]) -> bool
    ensures { result ≡ says_nothing (statement_of line.now) }
{
    matches!(read_line(line), Ok(Statement::Blank))
}

// What hears lines that say nothing.
#[derive(Drop)]
struct Tail;

// A line says something.
#[derive(Clone, Copy)]
struct TextFound;

impl Listener for Tail {
    ghost use Rattle.std.specs.Prelude.{⊤};
    ghost use Rattle.evac_top.specs.Reads.{HearsTail};

    type Fault = TextFound;

    ghost kept = { λ _. tt };

    ghost ready = { λ _. ⊤ };

    ghost hears = { λ tail line text result new. HearsTail (statement_of text) result };

    fn hear(&mut self, text: &[u8], _line: u32) -> Result<Heard, TextFound> {
        if says_nothing(text) {
            Ok(Heard::More)
        } else {
            Err(TextFound)
        }
    }
}

// The answer where so many lines went by.
#[tactic(auto, unfolding(line_io::specs::Line::input_limit))]
fn conclude_tail(ending: Ending<TextFound>, number: u32) -> Result<(), ModelFault>
    requires { number ≤ input_limit }
    ensures answer { result ≡ tail_by ending number }
    ensures caused { result ≡ Err ModelFault.ReadFault → ending ≡ Ending.Fault LineFault.ReadFault }
    ensures quiet { ending ≡ Ending.Fault LineFault.ReadFault → result ≡ Err ModelFault.ReadFault }
{
    let code = match ending {
        Ending::InputEnded => return Ok(()),
        Ending::Failed(_) | Ending::Finished => {
            return Err(ModelFault::Named {
                code: Code::TextAfterEnd,
                line: number,
            });
        }
        Ending::Fault(LineFault::LineTooLong) => Code::LineTooLong,
        Ending::Fault(LineFault::InputTooLong) => Code::InputTooLong,
        Ending::Fault(LineFault::ReadFault) => return Err(ModelFault::ReadFault),
    };
    Err(ModelFault::Named {
        code,
        line: number + 1,
    })
}

/// Reads to the end of the input, where there may be only blank lines and comments.
pub(crate) fn read_tail<S: Source>(lines: &mut Lines, source: &mut S) -> Result<(), ModelFault>
    ensures tail { ReadsTail result lines.old.number (lines_left lines.old (S.left source.old)) }
    ensures passes { PassesTail result lines.old lines.new (S.left source.old) (S.left source.new) }
    ensures ended { OnOk result (lines.new.ended ≡ true) }
    ensures drained { Drained lines.old (S.left source.old) → Drained lines.new (S.left source.new) }
    ensures asks { Asks S.takes lines.old source.old lines.new source.new }

    // a read fault has its cause
    ensures cause { RisesWith S.Source source.old source.new (result ≡ Err ModelFault.ReadFault) }
    ensures unfinished { result ≡ Err ModelFault.ReadFault → is_settled lines.new ≡ false }
    ensures in_memory { result ≡ Err ModelFault.Memory → ⊥ }
{
    let ending = listen(lines, source, &mut Tail);
    conclude_tail(ending, lines.number())
}

/// A building with the line of its end.
#[derive(Drop)]
pub struct Input {
    pub building: Building,
    pub last: u32,
}

// Reads to the end of the input after a building. What is said of the input is said of a reader that read the building.
fn read_end<S: Source>(
    lines: &mut Lines,
    source: &mut S,
    building: Building,
) -> Result<Input, ModelFault>
    requires { IsValid building.model }
    ensures input { (first : Reader) (left : Option (List ℕ)) → IsFresh first
        → ReadsModel (Ok building) first.number lines.old.number (lines_left first left) (lines_left lines.old (S.left source.old)) → Told left (InputIs result) }
    ensures valid { IfOk result (λ input. IsValid input.building.model) }
    ensures takes { (first : Reader) (left : Option (List ℕ)) → IsFresh first → ReadsLines (Ok building) first lines.old left (S.left source.old)
        → (Drained first left → Drained lines.old (S.left source.old)) → Takes IsOpenInput result left (S.left source.new) }
    ensures asks { Asks S.takes lines.old source.old lines.new source.new }
    ensures room { HasRoom lines.old → HasRoom lines.new }
    ensures cause { RisesWith S.Source source.old source.new (result ≡ Err ModelFault.ReadFault) }
{
    let last = lines.number();
    match read_tail(lines, source) {
        Ok(()) => Ok(Input { building, last }),
        Err(fault) => {
            drop(building);
            Err(fault)
        }
    }
}

/// Reads the building of an input that has nothing but blank lines and comments after its end.
pub(crate) fn read_input<S: Source>(
    alloc: Global,
    lines: &mut Lines,
    source: &mut S,
) -> Result<Input, ModelFault>
    requires { IsFresh lines.old }
    ensures input { Told (S.left source.old) (InputIs result) }
    ensures valid { IfOk result (λ input. IsValid input.building.model) }
    ensures takes { Takes IsOpenInput result (S.left source.old) (S.left source.new) }
    ensures asked { AsksAtMost S.takes (input_limit + BUFFER_SIZE) source.old source.new }
    ensures cause { RisesWith S.Source source.old source.new (result ≡ Err ModelFault.ReadFault) }
{
    match read_model(alloc, lines, source) {
        Ok(building) => read_end(lines, source, building),
        Err(fault) => Err(fault),
    }
}
