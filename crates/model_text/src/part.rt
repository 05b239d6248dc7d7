//! A part of a model.
ghost use Rattle.std.specs.Prelude.{◌≡◌};
ghost use Rattle.evac_law.specs.Limits.{capacity_limit, floor_number_limit, horizon_limit, people_limit, rate_limit, seconds_limit, travel_limit};
ghost use Rattle.model_text.specs.Fields.{behind_field, fields_of, text_of};
ghost use Rattle.model_text.specs.Grammar.{arc, entrant, exit_fields, floor, horizon, node, node_fields, part_by_word, period, title, window};
ghost use Rattle.model_text.specs.Reads.{ReadsPart};

use crate::fault::TextFault;
use crate::field_values::{four, name, one, ranged, ranged_short, text, three, two};
use crate::fields::{Fields, is_word};
use evac_law::NodeName;
use evac_law::limits::{
    CAPACITY_LIMIT, FLOOR_NUMBER_LIMIT, HORIZON_LIMIT, PEOPLE_LIMIT, RATE_LIMIT, SECONDS_LIMIT,
    TRAVEL_LIMIT,
};

/// A part of a model.
#[derive(Clone, Copy)]
pub enum Part<'a> {
    Title {
        text: &'a [u8],
    },
    Period {
        seconds: u16,
    },
    Horizon {
        moments: u16,
    },
    Floor {
        floor: u16,
        text: &'a [u8],
    },
    Node {
        name: NodeName,
        capacity: u32,
        start: u32,
    },
    Exit {
        name: NodeName,
    },
    Arc {
        from: NodeName,
        to: NodeName,
        travel: u16,
        rate: u32,
    },
    Window {
        from: NodeName,
        to: NodeName,
        first: u16,
        until: u16,
    },
    Entrant {
        name: NodeName,
        moment: u16,
        people: u32,
    },
}

fn title<'a>(fields: Fields<'a>) -> Result<Part<'a>, TextFault>
    ensures { ReadsPart result (title (text_of fields.entry)) }
{
    let text = text(fields)?;
    Ok(Part::Title { text })
}

#[tactic(auto, unfolding(evac_law::specs::Limits::seconds_limit))]
fn period<'a>(fields: Fields<'a>) -> Result<Part<'a>, TextFault>
    ensures { ReadsPart result (period (fields_of fields.entry)) }
{
    let seconds = ranged_short(one(fields)?, 1, SECONDS_LIMIT)?;
    Ok(Part::Period { seconds })
}

#[tactic(auto, unfolding(evac_law::specs::Limits::horizon_limit))]
fn horizon<'a>(fields: Fields<'a>) -> Result<Part<'a>, TextFault>
    ensures { ReadsPart result (horizon (fields_of fields.entry)) }
{
    let moments = ranged_short(one(fields)?, 0, HORIZON_LIMIT)?;
    Ok(Part::Horizon { moments })
}

#[tactic(auto, unfolding(evac_law::specs::Limits::floor_number_limit))]
fn floor<'a>(mut fields: Fields<'a>) -> Result<Part<'a>, TextFault>
    ensures { ReadsPart result (floor (fields_of fields.entry) (text_of (behind_field fields.entry))) }
{
    let Some(number) = fields.next() else {
        return Err(TextFault::FieldCount);
    };
    let text = text(fields)?;
    let floor = ranged_short(number, 0, FLOOR_NUMBER_LIMIT)?;
    Ok(Part::Floor { floor, text })
}

fn exit<'a>(name: NodeName, mut fields: Fields<'a>) -> Result<Part<'a>, TextFault>
    ensures { ReadsPart result (exit_fields name (fields_of fields.entry)) }
{
    match fields.next() {
        None => Ok(Part::Exit { name }),
        Some(_) => Err(TextFault::FieldCount),
    }
}

#[tactic(auto, unfolding(evac_law::specs::Limits::capacity_limit))]
fn room<'a>(name: NodeName, fields: Fields<'a>) -> Result<Part<'a>, TextFault>
    ensures { ReadsPart result (node_fields name (fields_of fields.entry)) }
{
    let (capacity, start) = two(fields)?;
    let capacity = ranged(capacity, 0, CAPACITY_LIMIT)?;
    let start = ranged(start, 0, CAPACITY_LIMIT)?;
    Ok(Part::Node {
        name,
        capacity,
        start,
    })
}

fn node<'a>(mut fields: Fields<'a>) -> Result<Part<'a>, TextFault>
    ensures { ReadsPart result (node (fields_of fields.entry)) }
{
    let Some(field) = fields.next() else {
        return Err(TextFault::FieldCount);
    };
    let name = name(field)?;
    if name.kind.is_exit() {
        exit(name, fields)
    } else {
        room(name, fields)
    }
}

#[tactic(auto, unfolding(evac_law::specs::Limits::travel_limit, evac_law::specs::Limits::rate_limit))]
fn arc<'a>(fields: Fields<'a>) -> Result<Part<'a>, TextFault>
    ensures { ReadsPart result (arc (fields_of fields.entry)) }
{
    let (from, to, travel, rate) = four(fields)?;
    let from = name(from)?;
    let to = name(to)?;
    let travel = ranged_short(travel, 1, TRAVEL_LIMIT)?;
    let rate = ranged(rate, 0, RATE_LIMIT)?;
    Ok(Part::Arc {
        from,
        to,
        travel,
        rate,
    })
}

#[tactic(auto, unfolding(evac_law::specs::Limits::horizon_limit))]
fn window<'a>(fields: Fields<'a>) -> Result<Part<'a>, TextFault>
    ensures { ReadsPart result (window (fields_of fields.entry)) }
{
    let (from, to, first, until) = four(fields)?;
    let from = name(from)?;
    let to = name(to)?;
    let first = ranged_short(first, 0, HORIZON_LIMIT)?;
    let until = ranged_short(until, 1, HORIZON_LIMIT + 1)?;
    Ok(Part::Window {
        from,
        to,
        first,
        until,
    })
}

#[tactic(auto, unfolding(evac_law::specs::Limits::horizon_limit, evac_law::specs::Limits::people_limit))]
fn entrant<'a>(fields: Fields<'a>) -> Result<Part<'a>, TextFault>
    ensures { ReadsPart result (entrant (fields_of fields.entry)) }
{
    let (node, moment, people) = three(fields)?;
    let name = name(node)?;
    let moment = ranged_short(moment, 1, HORIZON_LIMIT)?;
    let people = ranged(people, 1, PEOPLE_LIMIT)?;
    Ok(Part::Entrant {
        name,
        moment,
        people,
    })
}

/// The part that a first word and the fields after it say, or its first fault.
pub(crate) fn read_part<'a>(word: &[u8], fields: Fields<'a>) -> Result<Part<'a>, TextFault>
    ensures { ReadsPart result (part_by_word word.now fields.entry) }
{
    if is_word(word, b"title") {
        title(fields)
    } else if is_word(word, b"period") {
        period(fields)
    } else if is_word(word, b"horizon") {
        horizon(fields)
    } else if is_word(word, b"floor") {
        floor(fields)
    } else if is_word(word, b"node") {
        node(fields)
    } else if is_word(word, b"arc") {
        arc(fields)
    } else if is_word(word, b"window") {
        window(fields)
    } else if is_word(word, b"entrant") {
        entrant(fields)
    } else {
        Err(TextFault::UnknownWord)
    }
}
