//! A card for each person of the plan.
ghost use Rattle.std.specs.Prelude.{◌≡◌, ℕ, ◌<◌, List, length};
ghost use Rattle.std.specs.List.{All};
ghost use Rattle.evac_law.specs.Building.{IsValid};
ghost use Rattle.evac_law.specs.Stands.{Stands};
ghost use Rattle.line_io.specs.Writer.{Writes};
ghost use Rattle.plan_layout.specs.Layouts.{IsSameSite};
ghost use Rattle.report_text.specs.ReportText.{SaysCards, card_lines};
ghost use Rattle.report_text.specs.Parts.{IsCardIn};

use crate::lines::{put_card_line, put_number};
use crate::routes::put_steps;
use cards::{Card, Cards};
use certificate_text::put_end;
use evac_law::{Model, Standing};
use line_io::{Sink, Writer};

fn put_card<K: Sink>(writer: &mut Writer<'_, K>, model: &Model, number: u32, card: &Card<'_>)
    requires valid { IsValid model.now }
    requires card { IsCardIn model.now card.now }
    ensures { Writes K.Sink writer.old (card_lines model.now number card.now) writer.new }
{
    let name = model.node(card.start()).name;
    put_card_line(writer, number, name, card.entered());
    put_steps(writer, model, card.steps());
}

/// Puts a card for each person of a standing plan. The index is that of the plan's answer. Where the sink fails the cards that are left are
/// made all the same, so that what was put is the front of a whole list.
pub fn put_cards<K: Sink, F: Standing>(
    writer: &mut Writer<'_, K>,
    model: &Model,
    index: u32,
    standing: &F,
    cards: &mut Cards,
)
    requires stands { Stands model.now (F.stand standing.now) }
    requires site { IsSameSite model.now cards.old.model }
    ensures text { (text : List ℕ) × SaysCards index model.now (F.stand standing.now).plan text
        × Writes K.Sink writer.old text writer.new }
    ensures model { cards.new.model ≡ model.now }
{
    cards.begin(model, standing);
    put_number(writer, b"cards", u64::from(index));
    let mut number = 0;
    while cards.next() {
        number += 1;
        put_card(writer, model, number, &cards.card());
    }
    put_end(writer);
}
