//! So many fields of a line, and the numbers, names and texts that they hold.
ghost use Rattle.std.specs.Prelude.{◌≡◌, Err, MatchResult, Ok};
ghost use Rattle.model_text.specs.Fields.{fields_of, text_of};
ghost use Rattle.model_text.specs.Grammar.{four_fields, name_field, number_field, one_field, ranged, text_field, three_fields, two_fields};

use crate::fault::TextFault;
use crate::fields::Fields;
use crate::name::read_name;
use crate::number::read_number;
use evac_law::NodeName;

/// The only field.
pub(crate) fn one<'a>(mut fields: Fields<'a>) -> Result<&'a [u8], TextFault>
    ensures { MatchResult result (λ a. one_field (fields_of fields.entry) ≡ Ok a.now) (λ e. one_field (fields_of fields.entry) ≡ Err e) }
{
    match (fields.next(), fields.next()) {
        (Some(a), None) => Ok(a),
        _ => Err(TextFault::FieldCount),
    }
}

/// The only two fields.
pub(crate) fn two<'a>(mut fields: Fields<'a>) -> Result<(&'a [u8], &'a [u8]), TextFault>
    ensures { MatchResult result (λ f. two_fields (fields_of fields.entry) ≡ Ok (f.0.now, f.1.now)) (λ e. two_fields (fields_of fields.entry) ≡ Err e) }
{
    match (fields.next(), one(fields)) {
        (Some(a), Ok(b)) => Ok((a, b)),
        _ => Err(TextFault::FieldCount),
    }
}

/// The only three fields.
pub(crate) fn three<'a>(mut fields: Fields<'a>) -> Result<(&'a [u8], &'a [u8], &'a [u8]), TextFault>
    ensures { MatchResult result (λ f. three_fields (fields_of fields.entry) ≡ Ok (f.0.now, f.1.now, f.2.now)) (λ e. three_fields (fields_of fields.entry) ≡ Err e) }
{
    match (fields.next(), two(fields)) {
        (Some(a), Ok((b, c))) => Ok((a, b, c)),
        _ => Err(TextFault::FieldCount),
    }
}

/// The only four fields.
pub(crate) fn four<'a>(
    mut fields: Fields<'a>,
) -> Result<(&'a [u8], &'a [u8], &'a [u8], &'a [u8]), TextFault>
    ensures { MatchResult result (λ f. four_fields (fields_of fields.entry) ≡ Ok (f.0.now, f.1.now, f.2.now, f.3.now)) (λ e. four_fields (fields_of fields.entry) ≡ Err e) }
{
    match (fields.next(), three(fields)) {
        (Some(a), Ok((b, c, d))) => Ok((a, b, c, d)),
        _ => Err(TextFault::FieldCount),
    }
}

/// The number of a field.
pub(crate) fn number(field: &[u8]) -> Result<u32, TextFault>
    ensures { result ≡ number_field field.now }
{
    match read_number(field) {
        Some(n) => Ok(n),
        None => Err(TextFault::BadNumber),
    }
}

/// The number of a field, within a range.
pub(crate) fn ranged(field: &[u8], low: u32, high: u32) -> Result<u32, TextFault>
    ensures { result ≡ ranged low high field.now }
{
    match read_number(field) {
        Some(n) if n < low || n > high => Err(TextFault::OutOfRange),
        Some(n) => Ok(n),
        None => Err(TextFault::BadNumber),
    }
}

/// The same for a smaller number.
pub(crate) fn ranged_short(field: &[u8], low: u16, high: u16) -> Result<u16, TextFault>
    ensures { result ≡ ranged low high field.now }
{
    match read_number(field) {
        Some(n) if n < u32::from(low) || n > u32::from(high) => Err(TextFault::OutOfRange),
        Some(n) => Ok(n as u16),
        None => Err(TextFault::BadNumber),
    }
}

/// The name of a field.
pub(crate) fn name(field: &[u8]) -> Result<NodeName, TextFault>
    ensures { result ≡ name_field field.now }
{
    match read_name(field) {
        Some(n) => Ok(n),
        None => Err(TextFault::BadName),
    }
}

/// The text after the fields that were given.
pub(crate) fn text<'a>(fields: Fields<'a>) -> Result<&'a [u8], TextFault>
    ensures { MatchResult result (λ t. text_field (text_of fields.entry) ≡ Ok t.now) (λ e. text_field (text_of fields.entry) ≡ Err e) }
{
    match fields.text() {
        [] => Err(TextFault::FieldCount),
        text => Ok(text),
    }
}
