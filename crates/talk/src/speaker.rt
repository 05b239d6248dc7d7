//! Who answers the lines of a talk.
ghost use Rattle.std.specs.Prelude.{◌≡◌, ◌≤◌, ◌+◌, ℕ, List, length, IfOk, Ok};
ghost use Rattle.evac_law.specs.Building.{IsValid};
ghost use Rattle.evac_law.specs.declared.model.Model.{Model};
ghost use Rattle.line_io.specs.Line.{input_limit, line_limit};
ghost use Rattle.line_io.specs.Writer.{Writes};
ghost use Rattle.building_table.specs.Names.{NameTable, NamesFit};
ghost use Rattle.talk.specs.Short.{OpensShort};
ghost use Rattle.talk.specs.Speaking.{AnswersLine, KeepsSink, TalkBegins, speaking};
ghost use Rattle.talk.specs.Talks.{Spoken, Talk};

use building_table::Building;
use edit_session::BeginFault;
use evac_law::Steps;
use line_io::{Heard, Sink, Writer};
use std::alloc::{AllocError, Global};
use std::sync::ledger::Ledger;

/// Who answers the lines of a talk on a building.
pub trait Speaker {
    /// Where a talk is between two lines.
    ghost State: { Type 0 };

    ghost state: { Self → Self.State };

    /// What no line changes.
    ghost Kept: { Type 0 };

    ghost kept: { Self → Self.Kept };

    /// The text that opens a talk.
    ghost opening: { Self → List ℕ };

    /// The talk on a building, by its names and its model.
    ghost talk: { NameTable → Model → Talk Self.State };

    /// Where it can be after so many lines, and what it keeps then.
    ghost Reaches: { NameTable → Model → ℕ → Self.Kept → Self.State → Type 0 };

    /// It can answer a line.
    ghost ready: { Self → Type 0 };

    /// Begins the talk on a building.
    fn begin<L: Ledger>(
        alloc: Global,
        building: Building,
        steps: &mut Steps<L>,
    ) -> Result<Self, BeginFault>
        requires valid { IsValid building.model }
        requires names { NamesFit building.names building.model }
        ensures begins { (n : ℕ) × (steps.new ≡ steps.old + n) × TalkBegins opening state (talk building.names building.model) building.model result n }
        ensures reaches { IfOk result (λ t. (before : ℕ) → Reaches building.names building.model before (kept t) (state t)) }
        ensures ready { IfOk result ready };

    /// Puts the text that opens a talk.
    fn open<K: Sink>(&self, writer: &mut Writer<'_, K>)
        ensures { Writes K.Sink writer.old (opening self.now) writer.new };

    /// Puts what a line gets, unless it ends the talk. Where a line wants memory that isn't there nothing is put.
    fn answer<K: Sink, L: Ledger>(
        &mut self,
        writer: &mut Writer<'_, K>,
        steps: &mut Steps<L>,
        text: &[u8],
        line: u32,
    ) -> Result<Heard, AllocError>
        requires ready { ready self.old }
        requires line { line ≤ input_limit }
        requires short { length text.now ≤ line_limit }
        ensures answers { (names : NameTable) (m : Model) (before : ℕ) → line ≡ before + 1 → Reaches names m before (kept self.old) (state self.old)
            → AnswersLine K.Sink (talk names m) (Reaches names m) (speaking (kept self.old) (state self.old) writer.old steps.old) line text.now result
            (speaking (kept self.new) (state self.new) writer.new steps.new) }
        ensures same { KeepsSink writer.old writer.new }
        ensures more { result ≡ Ok Heard.More → ready self.new };

    /// A talk is refused as its building is.
    ghost refuses: { (names : NameTable) (m : Model) (line : ℕ) (x : Spoken) → OpensShort m line x → (talk names m).Refuses line x };
}
