//! What a row asks of its run.
use std::alloc::{AllocError, Global};

/// The first part of a row: the words of its run, and words that begin with `@`, which are for the row.
///
/// `@piece=7` is the most bytes that a call of the source gives, and `@read=3` the call of it that fails. `@put=5` is the most bytes that a
/// call of the sink takes, and `@room=12` the most that it takes in all. With `@reads=7` each call of the source fails in turn, and it gives
/// seven bytes at a time; with `@writes=7` each call of the sink does. `@check` has the checker read the input and the answer after it.
/// `@forced` leaves out the lines in which two best plans may differ, `@only=gone,out` all but those that begin so, and `@last=9` all but the
/// last nine of them; `@count=card` shows how many lines begin so.
#[derive(Clone, Copy)]
pub struct Ask<'a> {
    pub head: &'a str,
}

impl<'a> Ask<'a> {
    /// What a word of the row has after its name, if the row has it.
    pub fn word(self, name: &str) -> Option<&'a str> {
        for word in self.head.split(' ') {
            if let Some(rest) = word.strip_prefix(name) {
                return Some(rest);
            }
        }
        None
    }

    /// The number that a word of the row has after its name, or another.
    pub fn number(self, name: &str, other: u32) -> u32 {
        match self.word(name) {
            Some(rest) => rest.parse().unwrap_or(other),
            None => other,
        }
    }

    /// The modes of the runs, with commas between them: the first word, where `each` is every mode that reads a building.
    pub fn modes(self) -> &'a str {
        match self.head.split(' ').next() {
            Some("each") => "solve,cards,check,session,study,replan,upgrade",
            Some(modes) => modes,
            None => "",
        }
    }

    /// The words of the run in a mode. A word `""` is the empty word.
    pub fn words(self, alloc: Global, mode: &str) -> Result<Vec<String>, AllocError> {
        let mut words = Vec::new(alloc);
        words.push(String::from_str(alloc, plain(mode))?)?;
        for word in self.head.split(' ').skip(1) {
            if !word.starts_with('@') {
                words.push(String::from_str(alloc, plain(word))?)?;
            }
        }
        Ok(words)
    }
}

// A word, or the empty one.
fn plain(word: &str) -> &str {
    if word == "\"\"" { "" } else { word }
}
