//! The laws of names and of described buildings, each the contract of a function that does nothing.
ghost use Rattle.model_text.specs.Laws.{DescribedIsPlain, DescribedIsValid, NamesReadBack};

/// A field reads as a name exactly where it is the text of that name.
pub fn names_read_back()
    ensures { NamesReadBack }
{}

/// The model that lines describe is valid.
pub fn described_is_valid()
    ensures { DescribedIsValid }
{}

/// The building that lines describe is plain.
pub fn described_is_plain()
    ensures { DescribedIsPlain }
{}
