//! The fields of a line.
ghost use Rattle.std.specs.Prelude.{◌≡◌, ◌≤◌, ◌+◌, ℕ, List, [], ◌∷◌, drop, length, MatchOption, not};
ghost use Rattle.std.specs.List.{prefix_len};
ghost use Rattle.std.specs.Str.{bytes_eq};
ghost use Rattle.model_text.specs.Fields.{behind_word, fields_of, is_blank, skipped, text_of, trimmed, word};

use std::marker::Model;

fn is_blank(byte: u8) -> bool
    ensures { result ≡ is_blank byte }
{
    byte == b' ' || byte == b'\t'
}

fn blank_len(bytes: &[u8]) -> usize
    ensures value { result ≡ prefix_len is_blank bytes.now }
    ensures within { result ≤ length bytes.now }
{
    bytes.iter().take_while(|b| is_blank(**b)).count()
}

fn word_len(bytes: &[u8]) -> usize
    ensures value { result ≡ prefix_len (λ b. not (is_blank b)) bytes.now }
    ensures within { result ≤ length bytes.now }
{
    bytes.iter().take_while(|b| !is_blank(**b)).count()
}

fn skipped(bytes: &[u8]) -> &[u8]
    ensures { result.now ≡ skipped bytes.now }
{
    let count = blank_len(bytes);
    &bytes[count..]
}

/// Whether a field is a word.
pub fn is_word(field: &[u8], word: &[u8]) -> bool
    ensures { result ≡ bytes_eq field.now word.now }
{
    field == word
}

// The bytes up to a blank, and those from it on.
fn split(bytes: &[u8]) -> (&[u8], &[u8])
    ensures word { result.0.now ≡ word bytes.now }
    ensures behind { result.1.now ≡ behind_word bytes.now }
{
    let count = word_len(bytes);
    (&bytes[..count], &bytes[count..])
}

// The bytes without the blanks at their end.
fn trimmed(bytes: &[u8]) -> &[u8]
    ensures { result.now ≡ trimmed bytes.now }
{
    let mut end = bytes.len();
    while end > 0 && is_blank(bytes[end - 1]) {
        end -= 1;
    }
    &bytes[..end]
}

/// The fields of a line, one after the other.
#[derive(Drop)]
pub struct Fields<'a> {
    rest: &'a [u8],
}

impl<'a> Model for Fields<'a> {
    ghost use Rattle.std.specs.Prelude.{ℕ, List};

    ghost Value = { List ℕ };

    ghost view = { λ f. f.rest.now };
}

impl<'a> Fields<'a> {
    /// The fields of a line.
    pub fn new(line: &'a [u8]) -> Fields<'a>
        ensures { result ≡ line.now }
    {
        Fields { rest: line }
    }

    /// The next field, or none after the last.
    pub fn next(&mut self) -> Option<&'a [u8]>
        ensures field { MatchOption result (fields_of self.old ≡ []) (λ field. fields_of self.old ≡ field.now ∷ fields_of self.new) }
        ensures rest { self.new ≡ behind_word (skipped self.old) }
    {
        let (field, rest) = split(skipped(self.rest));
        self.rest = rest;
        if field.is_empty() { None } else { Some(field) }
    }

    /// What comes after the fields that were given, without the blanks around it.
    pub(crate) fn text(self) -> &'a [u8]
        ensures { result.now ≡ text_of self.entry }
    {
        trimmed(skipped(self.rest))
    }
}
