//! How long a word may be.

/// The most bytes of a word of the language.
pub const WORD_LIMIT: usize = 8;
