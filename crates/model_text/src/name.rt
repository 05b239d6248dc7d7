//! Name fields.
ghost use Rattle.std.specs.Prelude.{◌≡◌, ◌≤◌, drop, length, take};
ghost use Rattle.std.specs.List.{after_first, before_first, position_or_len};
ghost use Rattle.evac_law.specs.Limits.{floor_number_limit, number_limit};
ghost use Rattle.model_text.specs.NameFields.{is_dot, kind_of, name_of, name_of_parts, plain_within};
ghost use Rattle.model_text.specs.Numbers.{plain_number_of};

use crate::fields::is_word;
use crate::number::read_number;
use evac_law::limits::{FLOOR_NUMBER_LIMIT, NUMBER_LIMIT};
use evac_law::{Kind, NodeName};

// The kind of two letters.
fn kind_of(letters: &[u8]) -> Option<Kind>
    ensures { result ≡ kind_of letters.now }
{
    if is_word(letters, b"WP") {
        Some(Kind::Work)
    } else if is_word(letters, b"HA") {
        Some(Kind::Hall)
    } else if is_word(letters, b"SW") {
        Some(Kind::Stair)
    } else if is_word(letters, b"LO") {
        Some(Kind::Lobby)
    } else if is_word(letters, b"DS") {
        Some(Kind::Exit)
    } else {
        None
    }
}

// A number without leading zeros.
fn plain_number(field: &[u8]) -> Option<u32>
    ensures { result ≡ plain_number_of field.now }
{
    match field {
        [b'0', _, ..] => None,
        _ => read_number(field),
    }
}

// A number without leading zeros, within a range.
fn plain_within(field: &[u8], low: u16, high: u16) -> Option<u16>
    ensures { result ≡ plain_within low high field.now }
{
    let number = plain_number(field)?;
    if number < u32::from(low) || number > u32::from(high) {
        None
    } else {
        Some(number as u16)
    }
}

// The place of the first dot, or the number of bytes.
fn dot_place(bytes: &[u8]) -> usize
    ensures place { result ≡ position_or_len is_dot bytes.now }
    ensures within { result ≤ length bytes.now }
{
    bytes.iter().take_while(|b| **b != b'.').count()
}

// What comes before the first dot and after it.
fn parted(bytes: &[u8]) -> (&[u8], &[u8])
    ensures front { result.0.now ≡ before_first is_dot bytes.now }
    ensures back { result.1.now ≡ after_first is_dot bytes.now }
{
    let dot = dot_place(bytes);
    let behind = if dot < bytes.len() { dot + 1 } else { dot };
    (&bytes[..dot], &bytes[behind..])
}

// The name of two letters, a number and a floor.
#[tactic(auto, unfolding(evac_law::specs::Limits::number_limit, evac_law::specs::Limits::floor_number_limit))]
fn name_of_parts(letters: &[u8], number: &[u8], floor: &[u8]) -> Option<NodeName>
    ensures { result ≡ name_of_parts letters.now number.now floor.now }
{
    let kind = kind_of(letters)?;
    let number = plain_within(number, 1, NUMBER_LIMIT)?;
    let floor = plain_within(floor, 0, FLOOR_NUMBER_LIMIT)?;
    Some(NodeName {
        kind,
        number,
        floor,
    })
}

// The first two bytes, and what comes after them.
fn letters(field: &[u8]) -> (&[u8], &[u8])
    ensures front { result.0.now ≡ take 2 field.now }
    ensures back { result.1.now ≡ drop 2 field.now }
{
    if field.len() < 2 {
        (field, &field[field.len()..])
    } else {
        field.split_at(2)
    }
}

/// The name of a field: the two letters of a kind, a number, a dot and a floor.
#[tactic(auto, unfolding(crate::specs::NameFields::name_of))]
pub fn read_name(field: &[u8]) -> Option<NodeName>
    ensures { result ≡ name_of field.now }
{
    let (letters, rest) = letters(field);
    let (number, floor) = parted(rest);
    name_of_parts(letters, number, floor)
}
